// Verdicts, and the test for missing halves of registers that most refusals come from.
ghost use Rattle.std.specs.Prelude.{◌≡◌, ◌<◌};
ghost use Rattle.bits.specs.Sets.{lowest as lowest_of};
ghost use Rattle.bits.specs.Halves.{either as either_of};
ghost use Rattle.bits.specs.Outcomes.{refuses};
ghost use Rattle.safety.specs.Verdict.{plain, verdict_outcome, reported, lowest_half, none_of, none_missing};

use bits::fields::bits_at;
use bits::halves::{Halves, either, missing_halves};
use bits::sets::lowest;

// Which half of a register is told.
#[derive(Clone, Copy, Debug, PartialEq, Eq)]
pub enum Reported {
    Neither,
    Low,
    High,
}

// Why a container is refused: the number, its place, the instruction, the lowest register at fault and which half of it.
#[derive(Clone, Copy, Debug, PartialEq, Eq)]
pub struct Finding {
    pub number: u8,
    pub place: u8,
    pub index: usize,
    pub register: u32,
    pub half: Reported,
}

// What the verifier says of a container: accepted, or why it is refused.
pub type Verdict = Result<(), Finding>;

// The register of a finding where none is at fault: a number and no `Option`, as C and the line of a verdict show it.
pub const NO_REGISTER: u32 = 64;

// A refusal that names no register. The number may be any, as in the definition `plain`, so it is no `Reason`.
pub fn plain(number: u8, place: u8, index: usize) -> Finding
    ensures { result ≡ plain number place index }
{
    Finding {
        number,
        place,
        index,
        register: NO_REGISTER,
        half: Reported::Neither,
    }
}

pub fn refused(number: u8, place: u8, index: usize) -> Verdict
    ensures { verdict_outcome result ≡ refuses (plain number place index) }
{
    Err(plain(number, place, index))
}

// Of some halves, whose lowest register is r, the half that is told.
fn half_told(s: Halves, r: u32) -> Reported
    requires { (r ≡ lowest_of (either_of s)) × (r < 64) }
    ensures { result ≡ reported (lowest_half s) }
{
    if bits_at(s.low, u64::from(r), 1) == 1 {
        Reported::Low
    } else {
        Reported::High
    }
}

// Refused with `number` at instruction `index` for the lowest of some halves, if there are any.
fn none_of(number: u8, index: usize, s: Halves) -> Verdict
    ensures { verdict_outcome result ≡ none_of number index s }
{
    let any = either(s);
    if any == 0 {
        return Ok(());
    }
    let r = lowest(any);
    Err(Finding {
        number,
        place: 0,
        index,
        register: r,
        half: half_told(s, r),
    })
}

// Refused with `number` at instruction `index` where a half in `named` is missing from `held`.
pub fn none_missing(number: u8, index: usize, named: Halves, held: Halves) -> Verdict
    ensures { verdict_outcome result ≡ none_missing number index named held }
{
    none_of(number, index, missing_halves(named, held))
}
