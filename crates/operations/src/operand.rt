// Operands: sources looked up as far as they stay the same for a whole run.
ghost use Rattle.std.specs.Prelude.{◌≡◌};
ghost use Rattle.rows.specs.Sources.{meaning as meaning_of};
ghost use Rattle.operations.specs.Served.Operations.{operand_of, operand_worth};

use sources::{Source, meaning};

// Where an operand's number is had.
#[derive(Clone, Copy, Debug, PartialEq, Eq)]
pub enum Operand {
    // What a register holds. Its index is as wide as the number of the other case, so that one load has either.
    Register(u32),
    // The number that it is for the whole run.
    Fixed(u32),
}

// The operand that a source byte is on a page; a uniform past the list is 0.
pub(crate) fn operand_of(uniforms: &[u32], page: u8, b: u8) -> Operand
    ensures { result ≡ operand_of uniforms.now (meaning_of page b) }
{
    let m = meaning(page, b);
    match m {
        Source::Read(r) | Source::Released(r) => Operand::Register(u32::from(r)),
        Source::Uniform(u) => Operand::Fixed(uniforms.get(usize::from(u)).copied().unwrap_or(0)),
        Source::Immediate(v) => Operand::Fixed(v),
        Source::SpecialLow(_) | Source::SpecialHigh(_) | Source::Refused => Operand::Fixed(0),
    }
}

// What an operand is worth.
#[tactic(auto, unfolding(crate::specs::Served::Operations::operand_worth))]
pub fn operand_worth(registers: &[u32; 64], o: Operand) -> u32
    ensures { result ≡ operand_worth registers.now o }
{
    match o {
        // by reference: which place is read is then chosen without a branch
        Operand::Register(r) => *registers.get(r as usize).unwrap_or(&0),
        Operand::Fixed(number) => number,
    }
}
