// What single fields of a row hold, by their places among the fields of its kind.
ghost use Rattle.std.specs.Prelude.{◌≡◌};
ghost use Rattle.fields.specs.Meaning.{field_of};
ghost use Rattle.layouts.specs.Layout.{field_at};
ghost use Rattle.records.specs.Row.{fields_of};
ghost use Rattle.legality.specs.Before.{amount_at};
ghost use Rattle.standings.specs.Standing.{IsRead, entry_of_next};

use crate::next::NextRow;
use fields::field::{Field, Sort};
use layouts::book::{Book, summed_place};
use layouts::kinds::Kind;
use records::number_in;

const NO_FIELD: Field = Field {
    start: 0,
    width: 0,
    sort: Sort::Blank,
    required: false,
};

// An empty field where the kind has none at the place.
pub(crate) fn field_of<B: Book>(book: &B, kind: Kind, place: usize) -> Field
    ensures { field_of result ≡ field_at (fields_of B.Meant.meaning kind.mark) place }
{
    book.fields(kind).get(place).copied().unwrap_or(NO_FIELD)
}

// What a good row of its kind adds to the sum.
pub(crate) fn amount_in<B: Book>(book: &B, next: NextRow) -> u64
    ensures { IsRead B.Meant.meaning next.entry → result ≡ amount_at B.Meant.meaning B.Meant.meaning.summed (entry_of_next B.Meant.meaning next.entry) }
{
    match summed_place(book) {
        Some(place) if next.kind == place.kind => number_in(
            &field_of(book, next.kind, place.field),
            next.row,
        ),
        _ => 0,
    }
}
