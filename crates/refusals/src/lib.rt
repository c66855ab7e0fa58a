// The table of refusals: every fault that a call can answer, by layers, and what it tells.
// Each `From` is written out: a derived one has no clause `from_gives`, which says what `?` hands on.
// Each fault also has a method `refusal`, the conversion by a name that needs no type beside it; its clause names that fault's definition.
#![tactic(auto)]

mod carrier;
mod draft;
mod entry;
mod field;
mod file;
mod input;
mod row;
mod table;

pub use carrier::CarrierFault;
pub use draft::DraftFault;
pub use entry::{EntryFault, TakeFault, ValueFault};
pub use field::FieldFault;
pub use file::FileFault;
pub use input::InputFault;
pub use row::RowFault;
pub use table::{Layer, Refusal};
