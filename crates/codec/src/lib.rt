// Reading and writing words, with what demand 2 says of both.
#![tactic(auto)]

ghost use Rattle.std.specs.Prelude.{◌≡◌};
ghost use Rattle.reading.specs.Reader.{read};
ghost use Rattle.reader.specs.Answers.{reading};
ghost use Rattle.writing.specs.Writer.{write, stored};
ghost use Rattle.writer.specs.Answers.{writing};
ghost use Rattle.codec.specs.Demand2.{ReadAsAsked, WrittenAsAsked};

use reader::read_bytes;
use record::answer::Refusal;
use record::instruction::Instruction;
use writer::write_buffer;

// What eight bytes say: the instruction, or the first of the refusals 1 to 7.
pub fn read_word(bytes: &[u8]) -> Result<Instruction, Refusal>
    ensures answer { reading result ≡ read bytes.now }
    ensures demand { ReadAsAsked bytes.now (reading result) }
{
    read_bytes(bytes)
}

// Writes an instruction's word into a buffer of eight bytes, or gives the first of the refusals 8, 2, 9, 4, 5, 6, 7, 15 and leaves the
// buffer as it was.
pub fn write_word(i: Instruction, buffer: &mut [u8]) -> Result<(), Refusal>
    ensures answer { writing result ≡ write i buffer.old }
    ensures kept { buffer.new ≡ stored i buffer.old }
    ensures demand { WrittenAsAsked i buffer.old (writing result) buffer.new }
{
    write_buffer(i, buffer)
}
