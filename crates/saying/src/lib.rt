// What the programs that run stored cases share: the cases of their input, and the texts of their answers.
#![tactic(auto)]

mod entries;
mod texts;

pub use entries::{Entries, Entry};
pub use texts::{FindingText, ReadingText, RefusalText, RowName};
