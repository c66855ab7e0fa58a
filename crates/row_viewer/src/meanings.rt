// What the refusals of a row mean, in a few words. They are this program's, and no Display of the faults.
use refusals::{FieldFault, RowFault};

pub fn meaning_of(fault: RowFault) -> &'static str {
    match fault {
        RowFault::NoSuchKind { .. } => "the book has no kind with this mark",
        RowFault::Condition { .. } => "a condition of this kind of row is broken",
        RowFault::Field(FieldFault::BadByte { .. }) => "this byte may not stand here",
        RowFault::Field(FieldFault::NotFilled { .. }) => "this field must be filled",
        RowFault::Field(FieldFault::Unfit { .. }) => "too large, or no such code, word or date",
        RowFault::Field(FieldFault::Differs { .. }) => "the book prints something else here",
    }
}
