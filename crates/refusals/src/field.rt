// What one field can be refused for.
ghost use Rattle.std.specs.Prelude.{◌≡◌};
ghost use Rattle.refusals.specs.Refusals.{of_field};

use crate::table::{Layer, Refusal};

// Each case has the row and the position, from 1.
#[derive(Clone, Copy, PartialEq, Eq, Debug)]
pub enum FieldFault {
    // A byte outside the sort, or a text's first or last byte a blank: the first such position.
    BadByte { row: usize, position: usize },
    // Required and not filled: the field's start.
    NotFilled { row: usize, position: usize },
    // Wrong length, too large, no such code, word or date: the field's start.
    Unfit { row: usize, position: usize },
    // A constant or a blank differs: the first differing position.
    Differs { row: usize, position: usize },
}

impl From<FieldFault> for Refusal {
    ghost from_gives = { λ e r. r ≡ of_field e };

    fn from(fault: FieldFault) -> Refusal {
        let (number, first, second) = match fault {
            FieldFault::BadByte { row, position } => (11, row, position),
            FieldFault::NotFilled { row, position } => (12, row, position),
            FieldFault::Unfit { row, position } => (13, row, position),
            FieldFault::Differs { row, position } => (14, row, position),
        };
        Refusal {
            number,
            layer: Layer::Field,
            first,
            second,
        }
    }
}

impl FieldFault {
    // The number, the layer, the row and the position that are returned.
    pub fn refusal(self) -> Refusal
        ensures { result ≡ of_field self }
    {
        self.into()
    }
}
