// Which columns stand in which line.
ghost use Rattle.std.specs.Prelude.{◌≡◌, ◌+◌, ◌-◌, ◌%◌, ◌<◌, ◌≤◌, IfSome};
ghost use Rattle.row_viewer.specs.Lines.{Holds};

use fields::field::Field;

// So many columns of a row stand in one line.
pub const COLUMNS: usize = 60;

// A byte that a terminal can show; a `?` for any other.
pub fn shown(byte: u8) -> u8
    ensures { (32 ≤ result) × ((result ≤ 126) × ((32 ≤ byte → byte ≤ 126 → result ≡ byte))) }
{
    match byte {
        b' '..=b'~' => byte,
        _ => b'?',
    }
}

// Where the line begins that shows a position, if lines begin at `start` and every 60 columns after it.
pub fn line_with(start: usize, position: usize) -> usize
    requires { start ≤ position }
    ensures before { result ≤ position }
    ensures near { position - result < 60 }
    ensures after { start ≤ result }
    ensures even { (result - start) % 60 ≡ 0 }
{
    position - (position - start) % COLUMNS
}

// The place of the field that has a position.
pub fn field_with(fields: &[Field], position: usize) -> Option<usize>
    ensures { IfSome result (λ i. Holds fields.now i position) }
{
    fields.iter().position(|field| field.start <= position && position - field.start < field.width)
}
