// Numbers as rows hold them: digits with zeros before them, dates, amounts of money.
#![tactic(auto)]

pub mod cents;
pub mod dates;
mod digits;

pub use digits::put_digits;
