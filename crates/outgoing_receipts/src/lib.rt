// The book of outgoing receipts (letter P), with its laws shown.
// Its tables are written out in full, like those of the other books: they are compared with the bank's own, row by row.
#![tactic(auto)]

mod outgoing;
mod outgoing_names;

pub use outgoing::{CHARGE, HEADER, INFORMATION, OutgoingReceipts, TRAILER};
