// One field of a row: what its bytes read as, what its content is written as, and the law between the two.
#![tactic(auto)]

mod bytes;
mod digits;
pub mod field;
mod flaws;
mod in_row;
pub mod laws;
mod parts;
mod texts;
mod values;

pub use values::is_same;
