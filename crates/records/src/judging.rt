// Whether a row is good.
ghost use Rattle.std.specs.Prelude.{◌≡◌, IfOk};
ghost use Rattle.refusals.specs.Refusals.{refusal_in, of_row};
ghost use Rattle.refusals.specs.Faults.{in_row, first_some};
ghost use Rattle.records.specs.Row.{mark_of, row_faults};

use crate::kinds::find_kind;
use crate::parted::PartedRow;
use layouts::book::Book;
use layouts::kinds::Kind;
use refusals::RowFault;

// The kind of a good row: its mark is the book's, its fields are good by position, its conditions hold in order.
pub fn judge<B: Book>(book: &B, row_number: usize, row: &[u8; 750]) -> Result<Kind, RowFault>
    ensures refused { refusal_in of_row result ≡ in_row row_number (first_some (row_faults B.Meant.meaning row.now)) }
    ensures found { IfOk result (λ kind. kind.mark ≡ mark_of row.now) }
{
    let kind = find_kind(book, row_number, row)?;
    let parted = PartedRow {
        number: row_number,
        fields: book.fields(kind),
        row,
    };
    parted.check_fields()?;
    parted.check_conditions(book.conditions(kind))?;
    Ok(kind)
}
