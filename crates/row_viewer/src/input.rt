// The one row that is looked at.
ghost use Rattle.std.specs.Prelude.{◌≡◌, [], ◌∷◌, IfOk};
ghost use Rattle.forms.specs.Forms.{unhexed};
ghost use Rattle.rows.specs.Lines.{opened};

use forms::Hexadecimal;
use refusals::CarrierFault;
use rows::{Opened, Source};
use std::error::Error;
use std::fmt;

#[derive(Clone, Copy, PartialEq, Eq, Debug)]
pub enum InputFault {
    // The bytes break the hexadecimal form.
    Form(CarrierFault),
    // So many rows, and not one.
    Rows(usize),
}

impl fmt::Display for InputFault {
    fn fmt<W: fmt::Write>(&self, f: &mut fmt::Formatter<W>) -> fmt::Result {
        match self {
            InputFault::Form(fault) => {
                let at = fault.refusal().first;
                write!(f, "the input breaks the hexadecimal form at byte {at}")
            }
            InputFault::Rows(count) => write!(f, "one row is wanted, and there are {count}"),
        }
    }
}

impl Error for InputFault {}

impl From<CarrierFault> for InputFault {
    fn from(fault: CarrierFault) -> InputFault {
        InputFault::Form(fault)
    }
}

// The row that the bytes hold in the hexadecimal form, if they hold one row.
pub fn row_in(bytes: &[u8]) -> Result<[u8; 750], InputFault>
    ensures { IfOk result (λ row. opened unhexed 1501 bytes.now ≡ row ∷ []) }
{
    let rows: Opened<Hexadecimal> = Opened::open(bytes)?;
    if rows.count() != 1 {
        return Err(InputFault::Rows(rows.count()));
    }
    let mut row = [b' '; 750];
    rows.copy_row(1, &mut row)?;
    Ok(row)
}
