// The book of returned receipts (letter Q), with its laws shown.
// Its tables are written out in full, like those of the other books: they are compared with the bank's own, row by row.
#![tactic(auto)]

mod returned;
mod returned_names;

pub use returned::{
    HEADER, INFORMATION, PIX_LINK, QR_CODE, ReturnedReceipts, TRAILER, TRANSACTION,
};
