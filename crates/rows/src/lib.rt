// The instruction table: the rows, what stands in the fields of their words, what source bytes mean, and the rows' names.
#![tactic(auto)]

pub mod names;
pub mod table;
