// One row of one kind: what it is read as, whether it is good, and the law between an entry and its 750 bytes.
#![tactic(auto)]

mod conditions;
mod contents;
mod entries;
mod judging;
mod kinds;
mod laws;
mod parted;

pub use contents::{content_in, is_filled_in, number_in, text_in};
pub use entries::{Entry, Value, Worked};
pub use judging::judge;
pub use kinds::{find_kind, find_marked};
pub use laws::row_law;
