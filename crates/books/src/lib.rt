// The bank's three books, by their letters.
#![tactic(auto)]

pub mod letters;
