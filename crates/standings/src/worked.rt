// Whether the fields that are worked out hold what they must.
ghost use Rattle.std.specs.Prelude.{◌≡◌, map};
ghost use Rattle.refusals.specs.Refusals.{refusal, refusal_in, of_file};
ghost use Rattle.refusals.specs.Faults.{in_row};
ghost use Rattle.fields.specs.Meaning.{working_of, field_of};
ghost use Rattle.records.specs.Cells.{origin, origins};
ghost use Rattle.records.specs.Conditions.{number_in};
ghost use Rattle.records.specs.Held.{cell_in, digits_held};
ghost use Rattle.legality.specs.Checks.{is_wrong, first_wrong};
ghost use Rattle.records.specs.Worked.{worked_of};
ghost use Rattle.standings.specs.Looks.{number_for, looks_at};

use crate::next::NextRow;
use fields::field::{Field, Sort, Working};
use records::{Worked, number_in};
use refusals::FileFault;

// Which worked fields are looked at. An enum and no closure: the clauses name the fields and the refusal of each case.
#[derive(Clone, Copy)]
pub enum Look {
    // The numbers of the row and of its owner.
    Numbers,
    Totals,
    Counts,
}

impl Look {
    fn is_at(self, working: Working) -> bool
        ensures { result ≡ looks_at self (working_of working) }
    {
        matches!(
            (self, working),
            (Look::Numbers, Working::RowNumber | Working::OwnerNumber)
                | (Look::Totals, Working::Total)
                | (Look::Counts, Working::Count)
        )
    }

    fn fault(self, row_number: usize, position: usize) -> FileFault
        ensures { of_file result ≡ refusal (number_for self) row_number position }
    {
        let row = row_number;
        match self {
            Look::Numbers => FileFault::WrongNumber { row, position },
            Look::Totals => FileFault::WrongTotal { row, position },
            Look::Counts => FileFault::WrongCount { row, position },
        }
    }
}

fn is_wrong(field: &Field, look: Look, worked: Worked, row: &[u8; 750]) -> bool
    ensures { result ≡ is_wrong (looks_at look) (worked_of worked) (origin (field_of field.now)) (number_in (cell_in (field_of field.now) row.now)) }
{
    matches!(
        field.sort,
        Sort::Worked(working) if look.is_at(working) && number_in(field, row) != worked.number(working)
    )
}

// Refuses the first worked field that is looked at and holds another number.
pub fn check_worked(
    fields: &[Field],
    look: Look,
    worked: Worked,
    next: NextRow,
) -> Result<(), FileFault>
    ensures { refusal_in of_file result ≡ in_row next.entry.number (first_wrong (number_for look) (looks_at look) (worked_of worked) (origins (map field_of fields.now)) (digits_held (map field_of fields.now) next.entry.row.now)) }
{
    for field in fields {
        if is_wrong(field, look, worked, next.row) {
            return Err(look.fault(next.number, field.start));
        }
    }
    Ok(())
}
