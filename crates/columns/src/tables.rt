// The table of a book.
ghost use Rattle.std.specs.Prelude.{OnOk};
ghost use Rattle.layouts.specs.Layout.{kind_of};
ghost use Rattle.books.specs.Letters.{byte_of, layout_of};
ghost use Rattle.columns.specs.Tables.{KindText, TableText, Wrote};

use crate::lines::{put_field, put_heading};
use books::letters::Letter;
use layouts::book::Book;
use layouts::kinds::Kind;
use layouts::named::Named;
use layouts::placed::Placed;
use outgoing_receipts::OutgoingReceipts;
use recurring_charges::RecurringCharges;
use returned_receipts::ReturnedReceipts;
use std::alloc::AllocError;

// A kind: a heading, and a line for each field in order of positions.
fn put_kind<B: Book + Named>(
    out: &mut Vec<u8>,
    letter: Letter,
    book: &B,
    kind: Kind,
) -> Result<(), AllocError>
    ensures { OnOk result (Wrote out.old.items out.new.items (KindText (byte_of letter) kind.mark (kind_of B.Meant.meaning kind.mark).fields)) }
{
    let letter = u8::from(letter);
    put_heading(out, letter, kind.mark, book.title(kind))?;
    let fields = book.fields(kind);
    let names = book.names(kind);
    for (field, name) in fields.iter().zip(names) {
        let placed = Placed { field: *field };
        put_field(out, letter, kind.mark, placed, name)?;
    }
    Ok(())
}

fn put_book<B: Book + Named>(out: &mut Vec<u8>, letter: Letter, book: &B) -> Result<(), AllocError>
    ensures { OnOk result (Wrote out.old.items out.new.items (TableText (byte_of letter) B.Meant.meaning)) }
{
    for kind in book.kinds() {
        put_kind(out, letter, book, *kind)?;
    }
    Ok(())
}

// A trait with one generic method would say the book of a letter once for all programs, and be longer than these arms.
pub fn put_table(out: &mut Vec<u8>, letter: Letter) -> Result<(), AllocError>
    ensures { OnOk result (Wrote out.old.items out.new.items (TableText (byte_of letter) (layout_of letter))) }
{
    match letter {
        Letter::P => put_book(out, letter, &OutgoingReceipts),
        Letter::Q => put_book(out, letter, &ReturnedReceipts),
        Letter::S => put_book(out, letter, &RecurringCharges),
    }
}
