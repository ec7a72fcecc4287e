// Sets of halves of 64 registers.
ghost use Rattle.std.specs.Prelude.{◌≡◌};
ghost use Rattle.bits.specs.Halves.{both, either, minus_halves};

use crate::sets::missing;

// The registers whose low half is in the set, and those whose high half is.
#[derive(Clone, Copy, Debug, PartialEq, Eq)]
pub struct Halves {
    pub low: u64,
    pub high: u64,
}

// Both halves of some registers.
pub fn both(s: u64) -> Halves
    ensures { result ≡ both s }
{
    Halves { low: s, high: s }
}

// The registers of which a half is in the set.
pub fn either(s: Halves) -> u64
    ensures { result ≡ either s }
{
    s.low | s.high
}

// The halves of `a` that `b` lacks.
pub fn missing_halves(a: Halves, b: Halves) -> Halves
    ensures { result ≡ minus_halves a b }
{
    Halves {
        low: missing(a.low, b.low),
        high: missing(a.high, b.high),
    }
}
