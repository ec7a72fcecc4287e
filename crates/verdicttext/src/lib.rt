// A verdict in words, for a person.
#![tactic(auto)]

pub mod words;
