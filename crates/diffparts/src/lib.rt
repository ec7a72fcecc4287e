// What a line of the list of differences takes from the containers: the contents of an instruction, and each part that comes after those.
#![tactic(auto)]

pub mod contents;
pub mod parts;
pub mod single;
