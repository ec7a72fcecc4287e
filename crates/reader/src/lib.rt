// Reading words.
#![tactic(auto)]

ghost use Rattle.std.specs.Prelude.{◌≡◌, ℕ};
ghost use Rattle.record.specs.Instructions.{instruction_of};
ghost use Rattle.reading.specs.Reader.{read_number, read};
ghost use Rattle.reader.specs.Answers.{reading};
ghost use Rattle.judge.specs.Served.Judge.{Known, bytes_of};

use bits::bytes::load64;
use bits::fields::bits_at;
use judge::{Fit, judge_word};
use reasons::Reason;
use record::answer::Refusal;
use record::instruction::{Instruction, Sources};
use record::modifiers::modifiers_in;
use record::offset::offset_of;

// The four lowest bytes.
fn sources_in(s: u64) -> Sources
    ensures { result ≡ bytes_of s }
{
    let [s0, s1, s2, s3, ..] = s.to_le_bytes();
    Sources { s0, s1, s2, s3 }
}

// What a word says of which f is known.
fn instruction_of(f: Fit, w: u64) -> Instruction
    requires { (k : ℕ) × Known k w f }
    ensures { (k : ℕ) → Known k w f → result ≡ instruction_of k w }
{
    let sources = sources_in(f.sources);
    let modifiers = modifiers_in(f.modifiers, w);
    let offset = offset_of(bits_at(w, 8, 27) * bits_at(f.shape, 32, 1));
    Instruction {
        row: (f.shape >> 48) as u8,
        page: bits_at(w, 57, 2) as u8,
        flow: bits_at(w, 59, 4) as u8,
        register: bits_at(w, 40, 6) as u8,
        half_mask: bits_at(w, 46, 2) as u8,
        sources,
        modifiers,
        offset,
    }
}

// What a word says.
pub fn read_number(w: u64) -> Result<Instruction, Refusal>
    ensures { reading result ≡ read_number w }
{
    let f = judge_word(w)?;
    Ok(instruction_of(f, w))
}

// What eight bytes say, and 1 of any other count.
pub fn read_bytes(bytes: &[u8]) -> Result<Instruction, Refusal>
    ensures { reading result ≡ read bytes.now }
{
    if bytes.len() != 8 {
        return Err(Refusal {
            number: Reason::WordLength as u8,
            place: 0,
        });
    }
    read_number(load64(bytes))
}
