// What is written for the values of an instruction's fields: the names of modifiers, half masks, flows and special constants.
#![tactic(auto)]

pub mod kinds;
pub mod modifiers;
pub mod specials;
pub mod values;
