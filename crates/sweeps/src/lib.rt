// The sweeps that lead to annotations: the plan that they go by, and what they leave, as bytes.
#![tactic(auto)]

pub mod answer;
pub mod encode;
pub mod plan;
pub mod sweeps;
