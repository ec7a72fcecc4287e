// Whether the numbers of a record have room in a word, and the word that they make.
#![tactic(auto)]

pub mod room;
pub mod word;
