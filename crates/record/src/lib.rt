// Decoded instructions: what they hold, what is legal, the default of each row, what they do to registers.
#![tactic(auto)]

pub mod answer;
pub mod fresh;
pub mod instruction;
pub mod modifiers;
pub mod offset;
pub mod registers;
