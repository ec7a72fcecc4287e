// Whether two records are equal.
#![tactic(auto)]

ghost use Rattle.std.specs.Prelude.{◌≡◌};
ghost use Rattle.reader.specs.Answers.{reading};
ghost use Rattle.writing.specs.Writer.{is_record};

use record::answer::Refusal;
use record::instruction::Instruction;

// Was this record read?
pub fn is_record(x: Result<Instruction, Refusal>, i: Instruction) -> bool
    ensures { result ≡ is_record (reading x) i }
{
    x == Ok(i)
}
