// The cases of a list: the length of an input in decimal digits, LF, the input, LF, one after the other.
ghost use Rattle.std.specs.Prelude.{IfSome};
ghost use Rattle.conferir_cases.specs.Cases.{Headed, Parts};

// The length in front of the bytes, and what comes after its LF. No byte is read behind the first that is neither of them.
fn length_in(bytes: &[u8]) -> Option<(usize, &[u8])>
    ensures { IfSome result (λ p. Headed bytes.now p.1.now) }
{
    let mut length: usize = 0;
    for (at, byte) in bytes.iter().enumerate() {
        match byte {
            b'\n' => return Some((length, &bytes[at + 1..])),
            digit @ b'0'..=b'9' => {
                length = length
                    .checked_mul(10)?
                    .checked_add((digit - b'0') as usize)?;
            }
            _ => return None,
        }
    }
    None
}

// The input of the first case and what comes after it, if a case is there.
pub(crate) fn next_case(bytes: &[u8]) -> Option<(&[u8], &[u8])>
    ensures { IfSome result (λ p. Parts bytes.now p.0.now p.1.now) }
{
    let (length, behind) = length_in(bytes)?;
    let (input, behind) = behind.split_at_checked(length)?;
    let rest = behind.strip_prefix(b"\n")?;
    Some((input, rest))
}
