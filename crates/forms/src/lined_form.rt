// The lined form: a row's 750 bytes, CR, LF.
ghost use Rattle.std.specs.Prelude.{◌≡◌, length};
ghost use Rattle.forms.specs.Forms.{lined, unlined, lined_byte, lined_whole};
ghost use Rattle.forms.specs.FormLaws.{lined_fills, lined_back, lined_sound, lined_forth};
ghost use Rattle.std.proofs.Common.{rules};

use crate::forms::Form;

// The bytes of a line.
const LINE: usize = 752;

pub struct Lined;

impl Form for Lined {
    ghost size = { 752 };

    ghost encoded = { lined };

    ghost decoded = { unlined };

    ghost whole = { lined_whole };

    ghost good = { lined_byte };

    ghost sizes = { Prim.search rules };

    ghost fills = { λ r h. lined_fills r h };

    ghost back = { λ r h b. lined_back r h };

    ghost sound = { λ r h b p lt. lined_sound r h p lt };

    ghost forth = { λ l h good. lined_forth l h good };

    fn line_len() -> usize {
        LINE
    }

    fn write(row: &[u8; 750], out: &mut [u8]) {
        if let Some(line) = out.as_mut_array::<LINE>() {
            line[0..750].copy_from_slice(row);
            line[750..].copy_from_slice(b"\r\n");
        }
    }

    fn read(from: &[u8], out: &mut [u8; 750]) {
        if let Some(line) = from.as_array::<LINE>() {
            out.copy_from_slice(&line[0..750]);
        }
    }

    fn allows(place: usize, byte: u8) -> bool {
        match place {
            0..750 => true,
            750 => byte == b'\r',
            _ => byte == b'\n',
        }
    }
}
