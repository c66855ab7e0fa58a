// What is kept of the entries before, for the reader and a draft alike.
#![tactic(auto)]

mod held;
pub mod next;
pub mod owner;
pub mod progress;
pub mod worked;
