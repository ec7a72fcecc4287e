// The line of an instruction, as it is shown, and which instructions are marked as targets.
#![tactic(auto)]

pub mod line;
pub mod targets;
