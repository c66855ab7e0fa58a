// One value of a row.
ghost use Rattle.std.specs.Prelude.{◌≡◌, ◌-◌, ◌<◌, ◌≤◌, map, length, Some, Ok, Err, MatchResult, slice_get, slice_index_or, filter};
ghost use Rattle.std.specs.Option.{is_some};
ghost use Rattle.refusals.specs.Refusals.{refusal, of_value, of_take};
ghost use Rattle.fields.specs.Meaning.{field_of};
ghost use Rattle.layouts.specs.Layout.{no_field};
ghost use Rattle.records.specs.Held.{cell_in};
ghost use Rattle.records.specs.Row.{take_value};
ghost use Rattle.entries.specs.Asked.{asked_in};
ghost use Rattle.entries.specs.Taking.{entered_of, field_of_value, value_in, took, TakenAt, Holds};

use crate::origins::asked_of;
use fields::field::{Content, Field};
use layouts::book::Book;
use records::{content_in, judge, number_in};
use refusals::{CarrierFault, TakeFault, ValueFault};

// A number, or a text, word or long digits: that part of the row itself, and its position there, from 1.
#[derive(Clone, Copy)]
pub enum Taken<'a> {
    Number(u64),
    Text { position: usize, bytes: &'a [u8] },
}

// The field of an entry's value, by the value's place, from 0.
fn entered_at(fields: &[Field], place: usize) -> Option<Field>
    ensures { result ≡ slice_get (filter (λ f. is_some (asked_in f)) fields.now) place }
{
    fields
        .iter()
        .filter(|field| asked_of(field).is_some())
        .nth(place)
        .copied()
}

// The field of an entry's value, by the value's number, from 1.
fn find_entered(fields: &[Field], number: usize) -> Result<Field, ValueFault>
    ensures { MatchResult result (λ field. (0 < number) × (number ≤ length (entered_of (map field_of fields.now))) × (field_of field ≡ slice_index_or (entered_of (map field_of fields.now)) (number - 1) no_field)) (λ e. (of_value e ≡ refusal 31 number 0) × (0 < number → length (entered_of (map field_of fields.now)) < number)) }
{
    number
        .checked_sub(1)
        .and_then(|place| entered_at(fields, place))
        .ok_or(ValueFault { number })
}

// What an entered field of a good row holds. `whole` is the row too, but std's conversion to an array tells no address:
// no part of it is known to lie in `row`.
fn taken_from<'a>(field: &Field, row: &'a [u8], whole: &[u8; 750]) -> Taken<'a>
    requires same { whole.now ≡ row.now }
    requires held { Holds (cell_in (field_of field.now) row.now) }
    ensures value { Some (value_in result) ≡ cell_in (field_of field.now) row.now }
    ensures place { TakenAt row.entry.ref_ptr (field_of field.now) result }
{
    let Content::Text(text) = content_in(field, whole) else {
        return Taken::Number(number_in(field, whole));
    };
    let from = field.start - 1;
    Taken::Text {
        position: field.start,
        bytes: &row[from..from + text.len()],
    }
}

// Value `number`, from 1, of one row.
pub fn take<'a, B: Book>(book: &B, row: &'a [u8], number: usize) -> Result<Taken<'a>, TakeFault>
    ensures told { MatchResult result (λ taken. (take_value B.Meant.meaning row.now number ≡ Ok (value_in taken)) × TakenAt row.entry.ref_ptr (field_of_value B.Meant.meaning row.now number) taken) (λ e. take_value B.Meant.meaning row.now number ≡ Err (of_take e)) }
    ensures answer { took result ≡ take_value B.Meant.meaning row.now number }
{
    let whole = <&[u8; 750]>::try_from(row).map_err(|_| CarrierFault::BadForm(row.len().min(750)))?;
    let kind = judge(book, 0, whole)?;
    let field = find_entered(book.fields(kind), number)?;
    Ok(taken_from(&field, row, whole))
}
