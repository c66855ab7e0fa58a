// The three forms in which rows of 750 bytes lie in memory: how a row is written as a line of bytes.
#![tactic(auto)]

mod flat_form;
mod forms;
mod hexadecimal_form;
mod lined_form;

pub use flat_form::Flat;
pub use forms::Form;
pub use hexadecimal_form::Hexadecimal;
pub use lined_form::Lined;
