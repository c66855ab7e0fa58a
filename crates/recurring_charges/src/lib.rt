// The book of outgoing recurring charges (letter S), with its laws shown.
// Its tables are written out in full, like those of the other books: they are compared with the bank's own, row by row.
#![tactic(auto)]

mod recurring;
mod recurring_names;

pub use recurring::{HEADER, RECURRENCE, RecurringCharges, TRAILER};
