// Whose turn is next, which word it offers, and when a run ends (document 01, "A run").
#![tactic(auto)]

pub mod cursor;
pub mod ending;
pub mod stalls;
