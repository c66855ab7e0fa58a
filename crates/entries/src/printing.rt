// The row of an entry.
ghost use Rattle.std.specs.Prelude.{◌≡◌, ◌^◌, ◌<◌, true, [], ◌∷◌, map, Some, None, Ok, MatchResult, OnOk};
ghost use Rattle.std.specs.Slice.Iter.{iter_rest};
ghost use Rattle.refusals.specs.Refusals.{of_field, refusal_in, of_entry};
ghost use Rattle.refusals.specs.Faults.{in_row, first_some, fault_in};
ghost use Rattle.fields.specs.Field.{write_field};
ghost use Rattle.fields.specs.InRow.{at_field, WrittenAs};
ghost use Rattle.fields.specs.Meaning.{field_of, cell_of};
ghost use Rattle.layouts.specs.Lawful.{Covers};
ghost use Rattle.entries.specs.Asked.{asked_by};
ghost use Rattle.records.specs.Cells.{origin, wrong_value};
ghost use Rattle.records.specs.Entries.{handed_of, value_of, meant, inside, suits, handed31, value_fault};
ghost use Rattle.entries.specs.Printing.{cell_for, rest_after, Ready, print_fields};
ghost use Rattle.records.specs.Row.{mark10, origins_of, print_row};
ghost use Rattle.records.specs.Worked.{worked_of, reckoned_by};

use crate::origins::{Origin, origin_of};
use crate::values::check_values;
use fields::field::{Content, Field};
use layouts::book::Book;
use records::{Entry, Value, Worked, find_marked};
use refusals::{EntryFault, FieldFault};
use std::slice::Iter;

fn content_of<'b>(value: Value, pool: &'b [u8]) -> Content<'b>
    requires { inside pool.now value ≡ true }
    ensures { cell_of result ≡ Some (value_of pool.now value) }
{
    match value {
        Value::Number(number) => Content::Number(number),
        Value::Text { place, length } => Content::Text(&pool[place..place + length]),
    }
}

// What a field of the entry's row holds, where `values` gives the entry's values that are left.
fn next_content<'b>(
    field: &Field,
    values: &mut Iter<Value>,
    pool: &'b [u8],
    worked: Worked,
) -> Content<'b>
    requires { Ready pool.now (iter_rest values.old) (origin (field_of field.now)) }
    ensures cell { cell_of result ≡ cell_for pool.now (worked_of worked) (iter_rest values.old) (origin (field_of field.now)) }
    ensures rest { iter_rest values.new ≡ rest_after (iter_rest values.old) (origin (field_of field.now)) }
{
    match origin_of(field) {
        Origin::Book => Content::Fixed,
        Origin::Entered(_) => content_of(*values.next().unwrap(), pool),
        Origin::Worked(working) => Content::Number(worked.number(working)),
    }
}

// Prints the fields one after the other.
fn print_fields(
    fields: &[Field],
    entry: Entry,
    worked: Worked,
    row_number: usize,
    row: &mut [u8; 750],
) -> Result<(), FieldFault>
    requires covers { Covers 1 (map field_of fields.now) }
    requires valued { wrong_value (map (suits entry.pool.now) (asked_by fields.now)) entry.values.now ≡ None }
    ensures refused { refusal_in of_field result ≡ in_row row_number (fault_in (print_fields entry.entry.pool.now (worked_of worked) fields.now entry.entry.values.now)) }
    ensures printed { OnOk result (print_fields entry.entry.pool.now (worked_of worked) fields.now entry.entry.values.now ≡ Ok row.new) }
{
    let mut values = entry.values.iter();
    for field in fields {
        let content = next_content(field, &mut values, entry.pool, worked);
        field.write(row_number, row, content)?;
    }
    Ok(())
}

// Prints the entry's row with these worked numbers: its mark is the book's, its values suit, its fields are good by
// position. A refused entry leaves the row as it was.
pub fn print<B: Book>(
    book: &B,
    entry: Entry,
    worked: Worked,
    row_number: usize,
    row: &mut [u8; 750],
) -> Result<(), EntryFault>
    ensures refused { refusal_in of_entry result ≡ first_some (in_row row_number (mark10 B.Meant.meaning entry.entry.mark) ∷ (value_fault (handed31 B.Meant.meaning (handed_of entry.entry)) ∷ (in_row row_number (fault_in (print_row B.Meant.meaning (meant (handed_of entry.entry)) (reckoned_by (worked_of worked) (origins_of B.Meant.meaning entry.entry.mark)))) ∷ []))) }
    ensures printed { MatchResult result (λ _. print_row B.Meant.meaning (meant (handed_of entry.entry)) (reckoned_by (worked_of worked) (origins_of B.Meant.meaning entry.entry.mark)) ≡ Ok row.new) (λ _. row.new ≡ row.old) }
{
    let kind = find_marked(book, row_number, entry.mark)?;
    check_values(book, entry)?;
    let mut printed = [b' '; 750];
    print_fields(book.fields(kind), entry, worked, row_number, &mut printed)?;
    *row = printed;
    Ok(())
}
