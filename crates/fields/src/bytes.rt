// Which bytes may stand in a field: every fault of a byte is found here.
ghost use Rattle.std.specs.Prelude.{◌≡◌, ℕ, ◌<◌, Bool, length, None, Ok, Err, MatchResult};
ghost use Rattle.fields.specs.Places.{first_bad, some_bad, found};
ghost use Rattle.fields.specs.Digits.{no_digit, check_digits};
ghost use Rattle.fields.specs.Text.{bad_text, check_text};
ghost use Rattle.fields.specs.Field.{differs, read_fixed, no_zero};

use crate::flaws::Flaw;

// The first place whose byte is bad.
fn first_bad<F: Fn(usize, u8) -> bool>(bytes: &[u8], is_bad: F) -> Option<usize>
    ghost bad: { ℕ → ℕ → Bool }
    requires callable { (place byte : ℕ) → place < length bytes.now → F.pre is_bad place byte }
    requires tells { (place byte : ℕ) (r : Bool) → F.post is_bad place byte r → r ≡ bad place byte }
    ensures { result ≡ found bad bytes.now }
{
    // Of `position` over `enumerate` the check does not prove that `is_bad` may be called at each of its turns.
    for (place, byte) in bytes.iter().enumerate() {
        if is_bad(place, *byte) {
            return Some(place);
        }
    }
    None
}

// Printable, with no blank at either end.
pub fn check_text(text: &[u8]) -> Result<(), Flaw>
    ensures { MatchResult result (λ _. check_text text.now ≡ Ok text.now) (λ e. check_text text.now ≡ Err e) }
{
    let size = text.len();
    first_bad(text, |place, byte| {
        !matches!(byte, b' '..=b'~') || byte == b' ' && (place == 0 || place + 1 == size)
    })
    .map_or(Ok(()), |at| Err(Flaw::Byte(at)))
}

pub fn check_digits(bytes: &[u8]) -> Result<(), Flaw>
    ensures { MatchResult result (λ _. check_digits bytes.now ≡ Ok bytes.now) (λ e. check_digits bytes.now ≡ Err e) }
{
    first_bad(bytes, |_, byte| !byte.is_ascii_digit()).map_or(Ok(()), |at| Err(Flaw::Byte(at)))
}

// A fixed content, then blanks.
pub fn check_fixed(content: &[u8], bytes: &[u8]) -> Result<(), Flaw>
    ensures { MatchResult result (λ _. read_fixed content.now bytes.now ≡ Ok None) (λ e. read_fixed content.now bytes.now ≡ Err e) }
{
    first_bad(
        bytes,
        |place, byte| byte != *content.get(place).unwrap_or(&b' '),
    )
    .map_or(Ok(()), |at| Err(Flaw::Differs(at)))
}

// Whether digits are not all zeros.
pub fn has_nonzero(digits: &[u8]) -> bool
    ensures { result ≡ some_bad no_zero digits.now }
{
    first_bad(digits, |_, byte| byte != b'0').is_some()
}
