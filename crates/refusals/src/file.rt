// What a file is refused for.
ghost use Rattle.std.specs.Prelude.{◌≡◌};
ghost use Rattle.refusals.specs.declared.file.FileFault.TheVariants.{Row};
ghost use Rattle.refusals.specs.declared.row.RowFault.TheVariants.{Field};
ghost use Rattle.refusals.specs.Refusals.{of_file};

use crate::field::FieldFault;
use crate::row::RowFault;
use crate::table::{Layer, Refusal};

// Rows and positions count from 1. The fault of a single row is carried whole.
#[derive(Clone, Copy, PartialEq, Eq, Debug)]
pub enum FileFault {
    // The kind may not stand here.
    OutOfOrder { row: usize },
    // A follower past the largest group.
    GroupFull { row: usize },
    // The owner's charge type is not 2.
    OwnerType { row: usize },
    // The identifier is not the owner's: where the follower's starts.
    OtherIdentifier { row: usize, position: usize },
    // The row's or the owner's number: where the first wrong one starts.
    WrongNumber { row: usize, position: usize },
    // The trailer's total: where the first wrong one starts.
    WrongTotal { row: usize, position: usize },
    // The trailer's count: where the first wrong one starts.
    WrongCount { row: usize, position: usize },
    // The sum would pass 10^17 - 1: where the amount starts.
    SumTooLarge { row: usize, position: usize },
    // The row number is above 65,535.
    TooManyRows { row: usize },
    // No rows, or no trailer at the end: how many rows there are.
    NoTrailer { rows: usize },
    Row(RowFault),
}

impl From<RowFault> for FileFault {
    ghost from_gives = { λ e r. r ≡ Row e };

    fn from(fault: RowFault) -> FileFault {
        FileFault::Row(fault)
    }
}

// A field's fault, inside that of its row.
impl From<FieldFault> for FileFault {
    ghost from_gives = { λ e r. r ≡ Row (Field e) };

    fn from(fault: FieldFault) -> FileFault {
        FileFault::Row(RowFault::Field(fault))
    }
}

impl From<FileFault> for Refusal {
    ghost from_gives = { λ e r. r ≡ of_file e };

    fn from(fault: FileFault) -> Refusal {
        let (number, first, second) = match fault {
            FileFault::OutOfOrder { row } => (20, row, 1),
            FileFault::GroupFull { row } => (21, row, 1),
            FileFault::OwnerType { row } => (22, row, 1),
            FileFault::OtherIdentifier { row, position } => (22, row, position),
            FileFault::WrongNumber { row, position } => (23, row, position),
            FileFault::WrongTotal { row, position } => (24, row, position),
            FileFault::WrongCount { row, position } => (25, row, position),
            FileFault::SumTooLarge { row, position } => (26, row, position),
            FileFault::TooManyRows { row } => (27, row, 0),
            FileFault::NoTrailer { rows } => (28, rows, 0),
            FileFault::Row(fault) => return fault.refusal(),
        };
        Refusal {
            number,
            layer: Layer::File,
            first,
            second,
        }
    }
}

impl FileFault {
    // The number, the layer and the two values that are returned.
    pub fn refusal(self) -> Refusal
        ensures { result ≡ of_file self }
    {
        self.into()
    }
}
