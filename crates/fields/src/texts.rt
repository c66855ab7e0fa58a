// Texts: their bytes, then blanks.
ghost use Rattle.std.specs.Prelude.{◌≡◌, ◌≤◌, length, Ok, Err, MatchResult};
ghost use Rattle.fields.specs.Text.{trimmed, padded, read_text};

use crate::bytes::check_text;
use crate::flaws::Flaw;

// The field without the blanks at its end.
fn trim(field: &[u8]) -> &[u8]
    ensures bytes { result.now ≡ trimmed field.now }
    ensures place { result.ref_ptr ≡ field.entry.ref_ptr }
{
    match field.iter().rposition(|byte| *byte != b' ') {
        Some(last) => &field[..=last],
        None => &field[..0],
    }
}

pub fn read_text(field: &[u8]) -> Result<&[u8], Flaw>
    ensures { MatchResult result (λ t. (read_text field.now ≡ Ok t.now) × (t.ref_ptr ≡ field.entry.ref_ptr)) (λ e. read_text field.now ≡ Err e) }
{
    let text = trim(field);
    check_text(text)?;
    Ok(text)
}

// Writes a text that fits, and then blanks.
pub fn put_padded(field: &mut [u8], text: &[u8])
    requires { length text.now ≤ length field.old }
    ensures { field.new ≡ padded (length field.old) text.now }
{
    let n = text.len();
    field[0..n].copy_from_slice(text);
    field[n..].fill(b' ');
}
