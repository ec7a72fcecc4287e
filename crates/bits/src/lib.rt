// Runs of bits of a word, little-endian numbers, and sets of 64 registers and of their halves: the layer under everything else.
#![tactic(auto)]

pub mod bytes;
pub mod fields;
pub mod halves;
pub mod sets;
