// Text at the front of a buffer: numbers, bytes and the names of instructions.
#![tactic(auto)]

pub mod name;
pub mod put;
