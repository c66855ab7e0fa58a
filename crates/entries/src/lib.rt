// Entries and their rows: the values that a kind asks for, the row that an entry is printed as, and one value of a row.
#![tactic(auto)]

mod origins;
mod printing;
mod taking;
mod values;

pub use printing::print;
pub use taking::{Taken, take};
pub use values::check_values;
