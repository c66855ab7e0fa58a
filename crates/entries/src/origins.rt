// Where the content of a field comes from.
ghost use Rattle.std.specs.Prelude.{◌≡◌, length};
ghost use Rattle.fields.specs.Meaning.{field_of};
ghost use Rattle.entries.specs.Asked.{origin_of, origin_in, asked_in, asked_by};
ghost use Rattle.records.specs.Cells.{origin};

use fields::field::{Field, Sort, Working};

// What is asked of an entry: a number, or a text, which may also be a word or long digits.
#[derive(Clone, Copy)]
pub enum Asked {
    Number,
    Text,
}

#[derive(Clone, Copy)]
pub enum Origin {
    // The book itself: a constant or a blank.
    Book,
    // The entry.
    Entered(Asked),
    // The draft.
    Worked(Working),
}

pub fn origin_of(field: &Field) -> Origin
    ensures meant { origin (field_of field.now) ≡ origin_of field.now.start result }
    ensures exact { result ≡ origin_in field.now.sort }
{
    match field.sort {
        Sort::Constant(_) | Sort::Blank => Origin::Book,
        Sort::Number | Sort::Code(_) | Sort::Date | Sort::Amount => Origin::Entered(Asked::Number),
        Sort::Text | Sort::Word(_) | Sort::LongDigits => Origin::Entered(Asked::Text),
        Sort::Worked(working) => Origin::Worked(working),
    }
}

// What the field asks of an entry, if anything.
pub(crate) fn asked_of(field: &Field) -> Option<Asked>
    ensures { result ≡ asked_in field.now }
{
    match origin_of(field) {
        Origin::Entered(asked) => Some(asked),
        Origin::Book | Origin::Worked(_) => None,
    }
}

// How many values an entry has for these fields.
pub fn count_entered(fields: &[Field]) -> usize
    ensures { result ≡ length (asked_by fields.now) }
{
    fields.iter().filter_map(|field| asked_of(field)).count()
}
