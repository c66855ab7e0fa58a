// A field's own part of a row, read and written.
ghost use Rattle.std.specs.Prelude.{◌≡◌, true, length, Ok, Err, MatchResult};
ghost use Rattle.fields.specs.Field.{family, wide, raw_read, raw_write, fixed_of, shown, read_field, write_field, fits};
ghost use Rattle.fields.specs.Meaning.{sort_of, field_of, cell_of};
ghost use Rattle.fields.specs.InRow.{LiesAt};

use crate::bytes::{check_digits, check_fixed, check_text};
use crate::digits::read_number;
use crate::field::{Content, Field, Sort};
use crate::flaws::Flaw;
use crate::texts::{put_padded, read_text};
use crate::values::check_value;
use numbers::put_digits;

// The content of a constant; of a blank, nothing.
fn fixed_content(sort: Sort) -> &'static [u8]
    ensures { result.now ≡ fixed_of (family (sort_of sort)) }
{
    match sort {
        Sort::Constant(content) => content,
        _ => &[],
    }
}

// The bytes as they are, whatever the list of the sort.
fn read_bytes<'a>(sort: Sort, part: &'a [u8]) -> Result<Content<'a>, Flaw>
    requires { wide (sort_of sort) (length part.now) ≡ true }
    ensures { MatchResult result (λ v. (raw_read (family (sort_of sort)) part.now ≡ Ok (cell_of v)) × LiesAt part.entry.ref_ptr v) (λ e. raw_read (family (sort_of sort)) part.now ≡ Err e) }
{
    match sort {
        Sort::Constant(_) | Sort::Blank => {
            check_fixed(fixed_content(sort), part)?;
            Ok(Content::Fixed)
        }
        Sort::Text | Sort::Word(_) => Ok(Content::Text(read_text(part)?)),
        Sort::LongDigits => {
            check_digits(part)?;
            Ok(Content::Text(part))
        }
        Sort::Number | Sort::Code(_) | Sort::Date | Sort::Amount | Sort::Worked(_) => Ok(
            Content::Number(read_number(part)?),
        ),
    }
}

// What the part holds, or what is wrong with it.
pub fn read_part<'a>(field: Field, part: &'a [u8]) -> Result<Content<'a>, Flaw>
    requires fit { fits (field_of field) ≡ true }
    requires width { length part.now ≡ field.width }
    ensures { MatchResult result (λ v. (read_field (field_of field) part.now ≡ Ok (cell_of v)) × LiesAt part.entry.ref_ptr v) (λ e. read_field (field_of field) part.now ≡ Err e) }
{
    let content = read_bytes(field.sort, part)?;
    check_value(field.sort, field.required, content)?;
    Ok(content)
}

// Whether a content's bytes fit the sort and the width.
fn check_bytes(sort: Sort, width: usize, content: Content) -> Result<(), Flaw>
    requires { wide (sort_of sort) width ≡ true }
    ensures { MatchResult result (λ _. raw_write (family (sort_of sort)) width (cell_of content.entry) ≡ Ok (shown (family (sort_of sort)) width (cell_of content.entry))) (λ e. raw_write (family (sort_of sort)) width (cell_of content.entry) ≡ Err e) }
{
    match (sort, content) {
        (Sort::Constant(_) | Sort::Blank, Content::Fixed) => Ok(()),
        (Sort::Text | Sort::Word(_), Content::Text(text)) if text.len() <= width => check_text(
            text,
        ),
        (Sort::LongDigits, Content::Text(digits)) if digits.len() == width => check_digits(digits),
        (
            Sort::Number | Sort::Code(_) | Sort::Date | Sort::Amount | Sort::Worked(_),
            Content::Number(number),
        ) if number < 10u64.pow(width as u32) => Ok(()),
        _ => Err(Flaw::Unfit),
    }
}

// Writes a content that fits.
fn put(sort: Sort, part: &mut [u8], content: Content)
    requires { raw_write (family (sort_of sort)) (length part.old) (cell_of content) ≡ Ok (shown (family (sort_of sort)) (length part.old) (cell_of content)) }
    ensures { part.new ≡ shown (family (sort_of sort)) (length part.old) (cell_of content.entry) }
{
    match content {
        Content::Fixed => put_padded(part, fixed_content(sort)),
        Content::Number(number) => put_digits(part, number),
        Content::Text(text) => put_padded(part, text),
    }
}

// Writes a content that is found good, and nothing before.
pub fn write_part(field: Field, part: &mut [u8], content: Content) -> Result<(), Flaw>
    requires fit { fits (field_of field) ≡ true }
    requires width { length part.old ≡ field.width }
    ensures { MatchResult result (λ _. write_field (field_of field) (cell_of content.entry) ≡ Ok part.new) (λ e. (write_field (field_of field) (cell_of content.entry) ≡ Err e) × (part.new ≡ part.old)) }
{
    check_bytes(field.sort, field.width, content)?;
    check_value(field.sort, field.required, content)?;
    put(field.sort, part, content);
    Ok(())
}
