// What safety of a program is, and what a verdict on it says: the definitions, what is proved of them, and the verdicts themselves.
#![tactic(auto)]

pub mod verdict;
