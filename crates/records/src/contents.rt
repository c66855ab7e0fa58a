// What the fields of a row hold, whatever the row: nothing where a field is refused.
ghost use Rattle.std.specs.Prelude.{◌≡◌, ℕ, ◌+◌, ◌-◌};
ghost use Rattle.fields.specs.Field.{filled, family};
ghost use Rattle.fields.specs.InRow.{part, LiesAt, FrontOf};
ghost use Rattle.fields.specs.Meaning.{field_of, sort_of, cell_of};
ghost use Rattle.records.specs.Conditions.{number_in, text_in};
ghost use Rattle.records.specs.Held.{cell_in, BeginsAt};

use fields::field::{Content, Field};

// What a field holds; a field that is refused holds nothing. A text is that part of the row itself.
pub fn content_in<'a>(field: &Field, row: &'a [u8; 750]) -> Content<'a>
    ensures cell { cell_of result ≡ cell_in (field_of field.now) row.now }
    ensures place { LiesAt (row.entry.ref_ptr.0, field.now.start - 1 + row.entry.ref_ptr.1) result }
    ensures front { FrontOf (part (field_of field.now) row.now) result }
{
    field.read(0, row).unwrap_or(Content::Fixed)
}

// The number in a field, or 0.
pub fn number_in(field: &Field, row: &[u8; 750]) -> u64
    ensures { result ≡ number_in (cell_in (field_of field.now) row.now) }
{
    match content_in(field, row) {
        Content::Number(number) => number,
        _ => 0,
    }
}

// The text in a field, or an empty one. It is that part of the row itself.
pub fn text_in<'a>(field: &Field, row: &'a [u8; 750]) -> &'a [u8]
    ensures bytes { result.now ≡ text_in (cell_in (field_of field.now) row.now) }
    ensures place { BeginsAt (row.entry.ref_ptr.0, field.now.start - 1 + row.entry.ref_ptr.1) result.ref_ptr (cell_in (field_of field.now) row.now) }
{
    match content_in(field, row) {
        Content::Text(text) => text,
        _ => &[],
    }
}

// Whether a field is filled. What holds no value counts as filled.
pub fn is_filled_in(field: &Field, row: &[u8; 750]) -> bool
    ensures { result ≡ filled (family (sort_of field.now.sort)) (cell_in (field_of field.now) row.now) }
{
    field.sort.is_filled(content_in(field, row))
}
