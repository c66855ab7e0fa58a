// What an input is refused for.
ghost use Rattle.std.specs.Prelude.{◌≡◌};
ghost use Rattle.refusals.specs.declared.input.InputFault.TheVariants as input;
ghost use Rattle.refusals.specs.Refusals.{of_input};

use crate::carrier::CarrierFault;
use crate::file::FileFault;
use crate::table::{Layer, Refusal};

// The lower layers' faults are carried whole.
#[derive(Clone, Copy, PartialEq, Eq, Debug)]
pub enum InputFault {
    // More bytes than a letter, LF and 40 lines.
    TooLong,
    // No letter of a book, or no LF after it.
    NoBook,
    // What follows breaks the hexadecimal form.
    Form(CarrierFault),
    File(FileFault),
}

impl From<CarrierFault> for InputFault {
    ghost from_gives = { λ e r. r ≡ input.Form e };

    fn from(fault: CarrierFault) -> InputFault {
        InputFault::Form(fault)
    }
}

impl From<FileFault> for InputFault {
    ghost from_gives = { λ e r. r ≡ input.File e };

    fn from(fault: FileFault) -> InputFault {
        InputFault::File(fault)
    }
}

impl From<InputFault> for Refusal {
    ghost from_gives = { λ e r. r ≡ of_input e };

    fn from(fault: InputFault) -> Refusal {
        let number = match fault {
            InputFault::TooLong => 33,
            InputFault::NoBook => 32,
            InputFault::Form(fault) => return fault.refusal(),
            InputFault::File(fault) => return fault.refusal(),
        };
        Refusal {
            number,
            layer: Layer::Program,
            first: 0,
            second: 0,
        }
    }
}

impl InputFault {
    // The number, the layer and the two values that are returned.
    pub fn refusal(self) -> Refusal
        ensures { result ≡ of_input self }
    {
        self.into()
    }
}
