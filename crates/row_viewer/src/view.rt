// A row as a person reads it: each field with its positions and its name, and its content under a ruler.
ghost use Rattle.std.specs.Prelude.{◌+◌, ◌<◌, ◌≤◌, length};

use crate::lines::{COLUMNS, field_with, line_with, shown};
use crate::meanings::meaning_of;
use layouts::book::Book;
use layouts::kinds::Kind;
use layouts::named::Named;
use layouts::placed::Placed;
use records::{find_kind, judge};
use std::alloc::AllocError;
use std::fmt::Write;

const MARGIN: &str = "         ";

// The columns of a line, counted.
const RULER: &str =
    "                  1         2         3         4         5         6\n         123456789012345678901234567890123456789012345678901234567890\n";

// The columns from a position on, between bars, with the position before them.
fn put_line(out: &mut String, position: usize, columns: &[u8]) -> Result<(), AllocError> {
    write!(out, "    {position:03} |")?;
    for byte in columns {
        out.push(shown(*byte) as char)?;
    }
    out.push_str("|\n")
}

// A mark under a column of the line above.
fn put_mark(out: &mut String, column: usize) -> Result<(), AllocError>
    requires { column < 60 }
{
    out.push_str(MARGIN)?;
    for _ in 0..column {
        out.push(' ')?;
    }
    out.push_str("^\n")
}

// The positions and the name of a field.
fn put_name(out: &mut String, placed: Placed, name: &str) -> Result<(), AllocError> {
    let first = placed.field.start;
    let last = placed.last();
    write!(out, "{first:03}-{last:03} {name}\n")
}

// The content of a field, in lines of at most 60 columns.
fn put_content(out: &mut String, placed: Placed, row: &[u8; 750]) -> Result<(), AllocError> {
    for (i, columns) in placed.content(row).chunks(COLUMNS).enumerate() {
        put_line(out, placed.field.start + i * COLUMNS, columns)?;
    }
    Ok(())
}

fn put_fields<B: Book + Named>(
    out: &mut String,
    book: &B,
    kind: Kind,
    row: &[u8; 750],
) -> Result<(), AllocError> {
    let fields = book.fields(kind);
    let names = book.names(kind);
    for (field, name) in fields.iter().zip(names) {
        let placed = Placed { field: *field };
        put_name(out, placed, name)?;
        put_content(out, placed, row)?;
    }
    Ok(())
}

// The line that holds a position of a content, and a mark under it.
fn put_marked(
    out: &mut String,
    start: usize,
    content: &[u8],
    position: usize,
) -> Result<(), AllocError>
    requires { (start ≤ position) × (position < start + length content.now) }
{
    let from = line_with(start, position);
    let to = content.len().min(from - start + COLUMNS);
    put_line(out, from, &content[from - start..to])?;
    put_mark(out, position - from)
}

// The field in which a row was refused, or the front of a row that has no kind.
fn put_place<B: Book + Named>(
    out: &mut String,
    book: &B,
    position: usize,
    row: &[u8; 750],
) -> Result<(), AllocError>
    requires { (1 ≤ position) × (position ≤ 750) }
{
    if let Ok(kind) = find_kind(book, 1, row) {
        let fields = book.fields(kind);
        let names = book.names(kind);
        // By its place, of which `field_with` promises that the field there has the position.
        if let Some(i) = field_with(fields, position) {
            let placed = Placed { field: fields[i] };
            put_name(out, placed, names[i])?;
            return put_marked(out, placed.field.start, placed.content(row), position);
        }
    }
    put_marked(out, 1, row, position)
}

// What a row of a book is: its kind and its fields, or why it is refused.
pub fn put_row<B: Book + Named>(
    out: &mut String,
    book: &B,
    row: &[u8; 750],
) -> Result<(), AllocError> {
    match judge(book, 1, row) {
        Ok(kind) => {
            let mark = kind.mark as char;
            let title = book.title(kind);
            write!(out, "kind {mark} - {title}\n{RULER}")?;
            put_fields(out, book, kind, row)
        }
        Err(fault) => {
            let refusal = fault.refusal();
            let number = refusal.number;
            let position = refusal.second;
            let meaning = meaning_of(fault);
            write!(
                out,
                "refusal {number} at position {position:03}: {meaning}\n{RULER}"
            )?;
            if (1..=750).contains(&position) {
                put_place(out, book, position, row)?;
            }
            Ok(())
        }
    }
}
