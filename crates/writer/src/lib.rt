// Writing instructions.
#![tactic(auto)]

ghost use Rattle.std.specs.Prelude.{◌≡◌};
ghost use Rattle.bits.specs.Outcomes.{refuses};
ghost use Rattle.reasons.specs.Numbers.{number_of};
ghost use Rattle.record.specs.Answers.{refusal};
ghost use Rattle.writer.specs.Answers.{writing};
ghost use Rattle.writing.specs.Writer.{write, stored};

use bits::bytes::store64;
use judge::judge_word;
use reader::read_number;
use reasons::Reason;
use record::answer::Refusal;
use record::instruction::Instruction;
use rows::table;
use same::is_record;
use wordparts::room::numbers_fit;
use wordparts::word::word_of;

// A refusal that names no place.
fn refused(reason: Reason) -> Result<(), Refusal>
    ensures { writing result ≡ refuses (refusal (number_of reason) 0) }
{
    let number = reason.number();
    Err(Refusal { number, place: 0 })
}

// Writes an instruction's word into a buffer, or leaves the buffer as it is on the first of the refusals 8, 2, 9, 4 to 7, 15.
pub fn write_buffer(i: Instruction, buffer: &mut [u8]) -> Result<(), Refusal>
    ensures answer { writing result ≡ write i buffer.old }
    ensures kept { buffer.new ≡ stored i buffer.old }
{
    if buffer.len() != 8 {
        return refused(Reason::RoomLength);
    }
    if Instruction::ROWS <= i.row as usize {
        return refused(Reason::NoRow);
    }
    let v = table::row_at(i.row as usize);
    if !numbers_fit(v, i) {
        return refused(Reason::NoRoom);
    }
    let w = word_of(v, i);
    judge_word(w)?;
    if !is_record(read_number(w), i) {
        return refused(Reason::NotTheSame);
    }
    store64(w, buffer);
    Ok(())
}
