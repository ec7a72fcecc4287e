// The texts of the answers.
ghost use Rattle.std.specs.Prelude.{Some};
ghost use Rattle.rows.specs.Names.{name_of};
ghost use Rattle.saying.specs.Texts.{refusal_text, finding_text, reading_text};

use record::answer::Refusal;
use record::instruction::Instruction;
use safety::verdict::{Finding, Reported};
use std::fmt;

// A refusal of a word or of an instruction: its number and its place.
#[derive(Clone, Copy, Debug)]
pub struct RefusalText(pub Refusal);

impl fmt::Display for RefusalText {
    ghost output = { λ s. Some (refusal_text s.0) };

    fn fmt<W: fmt::Write>(&self, f: &mut fmt::Formatter<W>) -> fmt::Result {
        let Refusal { number, place } = self.0;
        write!(f, "refused {number} {place}")
    }
}

// A refusal of a container: number, place, instruction, register with the half.
#[derive(Clone, Copy, Debug)]
pub struct FindingText(pub Finding);

impl fmt::Display for FindingText {
    ghost output = { λ s. Some (finding_text s.0) };

    fn fmt<W: fmt::Write>(&self, f: &mut fmt::Formatter<W>) -> fmt::Result {
        let Finding {
            number,
            place,
            index,
            register,
            half,
        } = self.0;
        let letter = match half {
            Reported::Neither => "",
            Reported::Low => "L",
            Reported::High => "H",
        };
        write!(f, "REFUSED {number} {place} {index} {register}{letter}")
    }
}

// What a word reads as: the name of its row, or the refusal.
#[derive(Clone, Copy, Debug)]
pub struct ReadingText(pub Result<Instruction, Refusal>);

impl fmt::Display for ReadingText {
    ghost output = { λ s. Some (reading_text s.0) };

    fn fmt<W: fmt::Write>(&self, f: &mut fmt::Formatter<W>) -> fmt::Result {
        match self.0 {
            Ok(i) => write!(f, "{}", RowName(usize::from(i.row))),
            Err(refusal) => write!(f, "{}", RefusalText(refusal)),
        }
    }
}

// The name of a row; nothing where there is no such row.
#[derive(Clone, Copy, Debug)]
pub struct RowName(pub usize);

impl fmt::Display for RowName {
    ghost output = { λ s. Some (name_of s.0) };

    fn fmt<W: fmt::Write>(&self, f: &mut fmt::Formatter<W>) -> fmt::Result {
        let name = rows::names::of_row(self.0);
        let letters = &name.bytes[..usize::from(name.len)];
        match str::from_utf8(letters) {
            Ok(text) => f.write_str(text),
            Err(_) => Err(fmt::Error),
        }
    }
}
