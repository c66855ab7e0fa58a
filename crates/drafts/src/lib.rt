// Drafts: files written entry by entry on a carrier.
#![tactic(auto)]

pub mod drafts;
pub mod running;
