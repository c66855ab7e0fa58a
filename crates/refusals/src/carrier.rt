// What a source or a carrier refuses.
ghost use Rattle.std.specs.Prelude.{◌≡◌};
ghost use Rattle.refusals.specs.Refusals.{of_carrier};

use crate::table::{Layer, Refusal};

#[derive(Clone, Copy, PartialEq, Eq, Debug)]
pub enum CarrierFault {
    // The bytes break the form: the index from 0 of the first bad byte, or the length if they are cut short.
    BadForm(usize),
    // The places are used up: how many there are.
    Full(usize),
    // Row 0 or past the last: the number asked for.
    NoSuchRow(usize),
}

impl From<CarrierFault> for Refusal {
    ghost from_gives = { λ e r. r ≡ of_carrier e };

    fn from(fault: CarrierFault) -> Refusal {
        let (number, first) = match fault {
            CarrierFault::BadForm(at) => (1, at),
            CarrierFault::Full(places) => (2, places),
            CarrierFault::NoSuchRow(row) => (3, row),
        };
        Refusal {
            number,
            layer: Layer::Carrier,
            first,
            second: 0,
        }
    }
}

impl CarrierFault {
    // The number, the layer and the value that are returned.
    pub fn refusal(self) -> Refusal
        ensures { result ≡ of_carrier self }
    {
        self.into()
    }
}
