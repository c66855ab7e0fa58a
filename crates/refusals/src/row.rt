// What a row is refused for. A field's fault is carried whole.
ghost use Rattle.std.specs.Prelude.{◌≡◌};
ghost use Rattle.refusals.specs.declared.row.RowFault.TheVariants.{Field};
ghost use Rattle.refusals.specs.Refusals.{of_row};

use crate::field::FieldFault;
use crate::table::{Layer, Refusal};

#[derive(Clone, Copy, PartialEq, Eq, Debug)]
pub enum RowFault {
    // The book has no kind with the row's mark.
    NoSuchKind { row: usize },
    // A condition is broken: the highest start among its fields.
    Condition { row: usize, position: usize },
    Field(FieldFault),
}

impl From<FieldFault> for RowFault {
    ghost from_gives = { λ e r. r ≡ Field e };

    fn from(fault: FieldFault) -> RowFault {
        RowFault::Field(fault)
    }
}

impl From<RowFault> for Refusal {
    ghost from_gives = { λ e r. r ≡ of_row e };

    fn from(fault: RowFault) -> Refusal {
        let (number, first, second) = match fault {
            RowFault::NoSuchKind { row } => (10, row, 1),
            RowFault::Condition { row, position } => (15, row, position),
            RowFault::Field(fault) => return fault.refusal(),
        };
        Refusal {
            number,
            layer: Layer::Row,
            first,
            second,
        }
    }
}

impl RowFault {
    // The number, the layer, the row and the position that are returned.
    pub fn refusal(self) -> Refusal
        ensures { result ≡ of_row self }
    {
        self.into()
    }
}
