// Digits of fixed widths.
ghost use Rattle.std.specs.Prelude.{◌≡◌, length};
ghost use Rattle.numbers.specs.Digits.{printed};

// Writes the lowest digits of a number, as many as the field has.
pub fn put_digits(field: &mut [u8], number: u64)
    ensures { field.new ≡ printed (length field.old) number }
{
    let mut rest = number;
    // By its places: of the bytes that `field.iter_mut().rev()` wrote a proof knows nothing.
    for i in (0..field.len()).rev() {
        field[i] = b'0' + (rest % 10) as u8;
        rest /= 10;
    }
}
