// The hexadecimal form: two digits for each byte, the high one first, then LF.
ghost use Rattle.std.specs.Prelude.{◌≡◌, ◌+◌, ◌*◌, ◌<◌};
ghost use Rattle.forms.specs.Forms.{digit, digit_value, is_digit, hex_line, unhexed, hex_byte, hex_whole};
ghost use Rattle.forms.specs.FormLaws.{hex_fills, hex_back, hex_sound, hex_forth};
ghost use Rattle.std.proofs.Common.{rules};

use crate::forms::Form;

// The bytes of a line.
const LINE: usize = 1501;

pub struct Hexadecimal;

// The digit of a value below 16.
fn to_digit(value: u8) -> u8
    requires { value < 16 }
    ensures { result ≡ digit value }
{
    if value < 10 {
        b'0' + value
    } else {
        b'A' - 10 + value
    }
}

fn is_digit(byte: u8) -> bool
    ensures { result ≡ is_digit byte }
{
    matches!(byte, b'0'..=b'9') || matches!(byte, b'A'..=b'F')
}

// The value of a digit; of another byte, some number below 16.
fn to_value(byte: u8) -> u8
    ensures { (result ≡ digit_value byte) × (result < 16) }
{
    if byte <= b'9' {
        byte.saturating_sub(b'0')
    } else {
        (byte - (b'A' - 10)) % 16
    }
}

fn lay(row: &[u8; 750], out: &mut [u8; LINE])
    ensures { out.new ≡ hex_line row.now }
{
    // Each pair is written by its index: a proof knows no byte that is written through `chunks_exact_mut`.
    for (k, byte) in row.iter().enumerate() {
        out[2 * k] = to_digit(*byte / 16);
        out[2 * k + 1] = to_digit(*byte % 16);
    }
    out[1500] = b'\n';
}

// The byte that two digits stand for, the high one first.
fn to_byte(high: u8, low: u8) -> u8
    ensures { result ≡ digit_value high * 16 + digit_value low }
{
    to_value(high) * 16 + to_value(low)
}

fn pick_up(from: &[u8; LINE], out: &mut [u8; 750])
    ensures { out.new ≡ unhexed from.now }
{
    for (k, byte) in out.iter_mut().enumerate() {
        *byte = to_byte(from[2 * k], from[2 * k + 1]);
    }
}

impl Form for Hexadecimal {
    ghost size = { 1501 };

    ghost encoded = { hex_line };

    ghost decoded = { unhexed };

    ghost whole = { hex_whole };

    ghost good = { hex_byte };

    ghost sizes = { Prim.search rules };

    ghost fills = { λ r h. hex_fills r h };

    ghost back = { λ r h b. hex_back r h b };

    ghost sound = { λ r h b p lt. hex_sound r h b p lt };

    ghost forth = { λ l h good. hex_forth l h good };

    fn line_len() -> usize {
        LINE
    }

    fn write(row: &[u8; 750], out: &mut [u8]) {
        if let Some(line) = out.as_mut_array::<LINE>() {
            lay(row, line);
        }
    }

    fn read(from: &[u8], out: &mut [u8; 750]) {
        if let Some(line) = from.as_array::<LINE>() {
            pick_up(line, out);
        }
    }

    fn allows(place: usize, byte: u8) -> bool {
        if place < 1500 {
            is_digit(byte)
        } else {
            byte == b'\n'
        }
    }
}
