// The kind of a row, by its mark.
ghost use Rattle.std.specs.Prelude.{◌≡◌, IfOk};
ghost use Rattle.refusals.specs.Refusals.{refusal_in, of_row};
ghost use Rattle.refusals.specs.Faults.{in_row};
ghost use Rattle.records.specs.Row.{mark10, mark_of};

use layouts::book::Book;
use layouts::kinds::Kind;
use refusals::RowFault;

// The kind with a mark, for a row with this number.
pub fn find_marked<B: Book>(book: &B, row_number: usize, mark: u8) -> Result<Kind, RowFault>
    ensures refused { refusal_in of_row result ≡ in_row row_number (mark10 B.Meant.meaning mark) }
    ensures found { IfOk result (λ kind. kind.mark ≡ mark) }
{
    book.kind_of(mark)
        .ok_or(RowFault::NoSuchKind { row: row_number })
}

pub fn find_kind<B: Book>(book: &B, row_number: usize, row: &[u8; 750]) -> Result<Kind, RowFault>
    ensures refused { refusal_in of_row result ≡ in_row row_number (mark10 B.Meant.meaning (mark_of row.now)) }
    ensures found { IfOk result (λ kind. kind.mark ≡ mark_of row.now) }
{
    find_marked(book, row_number, row[0])
}
