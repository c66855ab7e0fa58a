// Whole lists of rows, written in a form from the start of a memory.
ghost use Rattle.std.specs.Prelude.{◌≡◌};
ghost use Rattle.rows.specs.Rows.{Laid};

use crate::carriers::Source;
use crate::copying::copy_all;
use crate::writing::Written;
use forms::Form;
use refusals::CarrierFault;

// Every row of the source; where places run out, as many as fitted, and the refusal.
pub fn write_all<F: Form, S: Source>(from: &S, memory: &mut [u8]) -> Result<usize, CarrierFault>
    ensures { Laid F.Form.size F.Form.encoded (S.Source.rows from.now) memory.old memory.new result }
{
    let mut out: Written<F> = Written::over(memory);
    copy_all(from, &mut out)
}
