// Numbers: digits with zeros before them.
ghost use Rattle.std.specs.Prelude.{◌≡◌, ◌≤◌, length, Ok, Err, MatchResult};
ghost use Rattle.fields.specs.Digits.{check_digits, read_number};
ghost use Rattle.numbers.specs.Digits.{value};

use crate::bytes::check_digits;
use crate::flaws::Flaw;

// The number that digits write: 18 of them fit 64 bits.
fn number_of(digits: &[u8]) -> u64
    requires good { check_digits digits.now ≡ Ok digits.now }
    requires short { length digits.now ≤ 18 }
    ensures { result ≡ value digits.now }
{
    let mut number = 0;
    for digit in digits {
        number = number * 10 + (*digit - b'0') as u64;
    }
    number
}

pub fn read_number(field: &[u8]) -> Result<u64, Flaw>
    requires { length field.now ≤ 18 }
    ensures { MatchResult result (λ n. read_number field.now ≡ Ok n) (λ e. read_number field.now ≡ Err e) }
{
    check_digits(field)?;
    Ok(number_of(field))
}
