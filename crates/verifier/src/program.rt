// One pass over the words of a program and its annotations.
ghost use Rattle.std.specs.Prelude.{◌≡◌, ◌*◌, ◌<◌, ◌≤◌};
ghost use Rattle.bits.specs.Halves.{both};
ghost use Rattle.bits.specs.Outcomes.{refuses, passes, ◌then◌, first};
ghost use Rattle.reader.specs.Answers.{reading};
ghost use Rattle.reading.specs.Reader.{read};
ghost use Rattle.container.specs.Container.{eight};
ghost use Rattle.safety.specs.Program.{program_in, Worded, Annotated};
ghost use Rattle.safety.specs.Verdict.{verdict_outcome, judge_word, judge_index, judge_program};

use bits::halves::Halves;
use codec::read_word;
use container::layout::WORD_LENGTH;
use flow::{annotation_at, judge_flow};
use reasons::Reason;
use record::answer::Refusal;
use record::instruction::Instruction;
use safety::verdict::{Finding, Verdict, none_missing, refused};

// The word at index i, read.
pub fn reading_at(words: &[u8], n: usize, i: usize) -> Result<Instruction, Refusal>
    requires { Worded words.now n × (i < n) }
    ensures { reading result ≡ read (eight words.now i) }
{
    let start = WORD_LENGTH * i;
    read_word(&words[start..start + WORD_LENGTH])
}

// n words.
#[derive(Clone, Copy)]
pub(crate) struct Words<'a> {
    pub(crate) bytes: &'a [u8],
    pub(crate) n: usize,
    ghost worded: { Worded bytes.now n },
}

impl<'a> Words<'a> {
    // The first refusal of a word from index `from` on, where all before read.
    pub(crate) fn read_from(self, from: usize) -> Verdict
        requires { (from ≤ self.n) × (first (judge_word self.bytes.now) from ≡ passes) }
        ensures { verdict_outcome result ≡ first (judge_word self.entry.bytes.now) self.entry.n }
    {
        for i in from..self.n {
            if let Err(unread) = reading_at(self.bytes, self.n, i) {
                return refused(unread.number, unread.place, i);
            }
        }
        Ok(())
    }

    // The same, and else the refusal f.
    fn unreadable_from(self, from: usize, f: Finding) -> Verdict
        requires { (from ≤ self.n) × (first (judge_word self.bytes.now) from ≡ passes) }
        ensures { verdict_outcome result ≡ (first (judge_word self.entry.bytes.now) self.entry.n then refuses f) }
    {
        self.read_from(from)?;
        Err(f)
    }

    // The verdict on the words and, where all of them read, on the instructions one by one.
    fn judge_instructions(self, version: u64, annotations: &'a [u8]) -> Verdict
        requires { Annotated version annotations.now self.n }
        ensures { verdict_outcome result ≡ (first (judge_word self.entry.bytes.now) self.entry.n then first (judge_index (program_in version self.entry.bytes.now annotations.now self.entry.n (both 0))) self.entry.n) }
    {
        for i in 0..self.n {
            match reading_at(self.bytes, self.n, i) {
                Ok(x) => {
                    if let Err(f) = judge_flow(version, annotations, self.n, i, x) {
                        return self.unreadable_from(i + 1, f);
                    }
                }
                Err(x) => {
                    return refused(x.number, x.place, i);
                }
            }
        }
        Ok(())
    }
}

// The verdict on n words and annotations, before which `entry` is defined. A word that does not read comes before any other refusal.
pub fn judge_words<'a>(
    version: u64,
    words: &'a [u8],
    annotations: &'a [u8],
    n: usize,
    entry: Halves,
) -> Verdict
    requires { Worded words.now n × Annotated version annotations.now n × (0 < n) }
    ensures { verdict_outcome result ≡ (first (judge_word words.now) n then judge_program (program_in version words.now annotations.now n entry)) }
{
    let words = Words { bytes: words, n };
    let first = annotation_at(version, annotations, n, 0);
    if let Err(f) = none_missing(Reason::EntryMissing as u8, 0, first, entry) {
        return words.unreadable_from(0, f);
    }
    words.judge_instructions(version, annotations)
}
