// The verdict on an input, and the line that tells it.
#![tactic(auto)]

pub mod lines;
pub mod verdicts;
