// A field of a book as one line of text. Letters and marks are bytes here: a line prints them, and a `Letter` and a `Kind` would be turned into bytes in each function.
ghost use Rattle.std.specs.Prelude.{◌≡◌, ◌++◌, map, OnOk};
ghost use Rattle.numbers.specs.Digits.{printed};
ghost use Rattle.fields.specs.Meaning.{sort_of, field_of};
ghost use Rattle.columns.specs.Lines.{sort_word, requirement, spread, spaced, quoted, admitted, positions, place, sort_text, ended, remark, field_line, heading};

use fields::field::{Field, Sort, Working};
use layouts::placed::Placed;
use numbers::put_digits;
use std::alloc::AllocError;

fn put_position(out: &mut Vec<u8>, n: usize) -> Result<(), AllocError>
    ensures { OnOk result (out.new.items ≡ out.old.items ++ printed 3 n) }
{
    let mut digits = [b'0'; 3];
    put_digits(&mut digits, n as u64);
    out.extend_from_slice(&digits)
}

fn put_positions(out: &mut Vec<u8>, placed: Placed) -> Result<(), AllocError>
    ensures { OnOk result (out.new.items ≡ out.old.items ++ positions (field_of placed.field)) }
{
    put_position(out, placed.field.start)?;
    out.push(b'-')?;
    put_position(out, placed.last())
}

// A word of this listing, and no Display of the sort: that would put it into the engine.
pub fn sort_word(sort: Sort) -> &'static str
    ensures { result.now ≡ sort_word (sort_of sort) }
{
    match sort {
        Sort::Constant(_) => "constant",
        Sort::Blank => "blank",
        Sort::Text => "text",
        Sort::Word(_) => "word",
        Sort::Number => "number",
        Sort::Code(_) => "code",
        Sort::Date => "date",
        Sort::Amount => "amount",
        Sort::LongDigits => "long-digits",
        Sort::Worked(Working::RowNumber) => "row-number",
        Sort::Worked(Working::OwnerNumber) => "owner-number",
        Sort::Worked(Working::Total) => "total",
        Sort::Worked(Working::Count) => "count",
    }
}

// Nothing for constants, blanks and worked fields, to which nobody gives a value. Like the word of the sort, it is this listing's.
pub fn requirement(field: Field) -> &'static str
    ensures { result.now ≡ requirement (field_of field) }
{
    match field.sort {
        Sort::Constant(_) | Sort::Blank | Sort::Worked(_) => "",
        _ if field.required => " required",
        _ => " optional",
    }
}

fn put_quoted(out: &mut Vec<u8>, text: &[u8]) -> Result<(), AllocError>
    ensures { OnOk result (out.new.items ≡ out.old.items ++ quoted text.now) }
{
    out.extend_from_slice(b" \"")?;
    out.extend_from_slice(text)?;
    out.extend_from_slice(b"\"")
}

fn put_words(out: &mut Vec<u8>, words: &[&[u8]]) -> Result<(), AllocError>
    ensures { OnOk result (out.new.items ≡ out.old.items ++ spread quoted (map (λ w. w.now) words.now)) }
{
    for word in words {
        put_quoted(out, word)?;
    }
    Ok(())
}

fn put_code(out: &mut Vec<u8>, code: u64) -> Result<(), AllocError>
    ensures { OnOk result (out.new.items ≡ out.old.items ++ spaced code) }
{
    let text = format!(in *out.allocator(); " {code}")?;
    out.extend_from_slice(text.as_bytes())
}

fn put_codes(out: &mut Vec<u8>, codes: &[u64]) -> Result<(), AllocError>
    ensures { OnOk result (out.new.items ≡ out.old.items ++ spread spaced codes.now) }
{
    for code in codes {
        put_code(out, *code)?;
    }
    Ok(())
}

fn put_admitted(out: &mut Vec<u8>, sort: Sort) -> Result<(), AllocError>
    ensures { OnOk result (out.new.items ≡ out.old.items ++ admitted (sort_of sort)) }
{
    match sort {
        Sort::Constant(text) => put_quoted(out, text),
        Sort::Word(words) => put_words(out, words),
        Sort::Code(codes) => put_codes(out, codes),
        _ => Ok(()),
    }
}

// The sort, whether it is required, and what it admits.
fn put_sort(out: &mut Vec<u8>, field: Field) -> Result<(), AllocError>
    ensures { OnOk result (out.new.items ≡ out.old.items ++ sort_text (field_of field)) }
{
    out.push(b' ')?;
    out.extend_from_slice(sort_word(field.sort).as_bytes())?;
    out.extend_from_slice(requirement(field).as_bytes())?;
    put_admitted(out, field.sort)
}

// Book, kind and positions.
fn put_place(out: &mut Vec<u8>, letter: u8, mark: u8, placed: Placed) -> Result<(), AllocError>
    ensures { OnOk result (out.new.items ≡ out.old.items ++ place letter mark (field_of placed.field)) }
{
    out.extend_from_slice(&[letter, b' ', mark, b' '])?;
    put_positions(out, placed)
}

// A text, and the end of the line.
fn put_end(out: &mut Vec<u8>, text: &str) -> Result<(), AllocError>
    ensures { OnOk result (out.new.items ≡ out.old.items ++ ended text.now) }
{
    out.extend_from_slice(text.as_bytes())?;
    out.extend_from_slice(b"\n")
}

fn put_name(out: &mut Vec<u8>, name: &str) -> Result<(), AllocError>
    ensures { OnOk result (out.new.items ≡ out.old.items ++ remark name.now) }
{
    out.extend_from_slice(b" # ")?;
    put_end(out, name)
}

// The line of a field, with its name as a remark.
pub fn put_field(
    out: &mut Vec<u8>,
    letter: u8,
    mark: u8,
    placed: Placed,
    name: &str,
) -> Result<(), AllocError>
    ensures { OnOk result (out.new.items ≡ out.old.items ++ field_line letter mark (field_of placed.field) name.now) }
{
    put_place(out, letter, mark, placed)?;
    put_sort(out, placed.field)?;
    put_name(out, name)
}

// The line before the fields of a kind.
pub fn put_heading(out: &mut Vec<u8>, letter: u8, mark: u8, title: &str) -> Result<(), AllocError>
    ensures { OnOk result (out.new.items ≡ out.old.items ++ heading letter mark title.now) }
{
    let mut lead = *b"# P kind 0 - ";
    lead[2] = letter;
    lead[9] = mark;
    out.extend_from_slice(&lead)?;
    put_end(out, title)
}
