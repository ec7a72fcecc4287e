ghost use Rattle.std.specs.Prelude.{◌≡◌, ◌≤◌, ◌<◌, ◌^◌};
ghost use Rattle.bits.specs.Sets.{minus, lowest, single};

// The members of `a` that `b` lacks.
pub fn missing(a: u64, b: u64) -> u64
    ensures { result ≡ minus a b }
{
    a & !b
}

// The lowest member of a set, or 64 where it has none: the count of trailing zeros, as the definition `lowest` has it, and so no `Option`.
pub fn lowest(s: u64) -> u32
    ensures { (result ≡ lowest s) × (result ≤ 64) }
{
    u64::trailing_zeros(s)
}

// The set of one number below 64, and the empty set for any other.
pub fn single(r: u8) -> u64
    ensures { result ≡ single r }
{
    if r < 64 { 1u64 << r } else { 0 }
}
