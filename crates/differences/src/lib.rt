// What differs between two containers: the list and its lines, what is proved of it, and a line as numbers.
#![tactic(auto)]

pub mod answer;
pub mod line;
pub mod numbers;
