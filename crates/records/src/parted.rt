// A row, and the fields that part it.
ghost use Rattle.std.specs.Prelude.{◌≡◌};
ghost use Rattle.refusals.specs.Refusals.{of_field, refusal_in};
ghost use Rattle.refusals.specs.Faults.{in_row};
ghost use Rattle.records.specs.Held.{fields_fault};
ghost use Rattle.records.specs.Parted.{fields_in};

use fields::field::Field;
use refusals::FieldFault;

// A row by its number, and the fields of its kind.
#[derive(Clone, Copy)]
pub(crate) struct PartedRow<'a> {
    pub number: usize,
    pub fields: &'a [Field],
    pub row: &'a [u8; 750],
}

impl PartedRow<'_> {
    // Refuses the first field, by position, that is not as its sort has it.
    pub(crate) fn check_fields(&self) -> Result<(), FieldFault>
        ensures { refusal_in of_field result ≡ in_row self.now.number (fields_fault (fields_in self.now) self.now.row.now) }
    {
        for field in self.fields {
            field.read(self.number, self.row)?;
        }
        Ok(())
    }
}
