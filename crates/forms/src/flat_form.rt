// The flat form: a row's 750 bytes and nothing more.
ghost use Rattle.std.specs.Prelude.{◌≡◌};
ghost use Rattle.forms.specs.Forms.{flat, any_byte, flat_whole};
ghost use Rattle.std.proofs.Common.{rules};

use crate::forms::Form;

// The bytes of a line.
const LINE: usize = 750;

pub struct Flat;

impl Form for Flat {
    ghost size = { 750 };

    ghost encoded = { flat };

    ghost decoded = { flat };

    ghost whole = { flat_whole };

    ghost good = { any_byte };

    ghost sizes = { Prim.search rules };

    ghost fills = { Prim.search rules };

    ghost back = { Prim.search rules };

    ghost sound = { Prim.search rules };

    ghost forth = { Prim.search rules };

    fn line_len() -> usize {
        LINE
    }

    fn write(row: &[u8; 750], out: &mut [u8]) {
        if let Some(line) = out.as_mut_array::<LINE>() {
            *line = *row;
        }
    }

    fn read(from: &[u8], out: &mut [u8; 750]) {
        if let Some(line) = from.as_array::<LINE>() {
            *out = *line;
        }
    }

    fn allows(_place: usize, _byte: u8) -> bool {
        true
    }
}
