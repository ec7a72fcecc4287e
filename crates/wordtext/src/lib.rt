// What a person is shown for a word of a program.
#![tactic(auto)]

pub mod column;
