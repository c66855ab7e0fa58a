// What an entry or a value asked for is refused for. The faults of a row and of a carrier are carried whole.
ghost use Rattle.std.specs.Prelude.{◌≡◌};
ghost use Rattle.refusals.specs.declared.row.RowFault.TheVariants.{Field};
ghost use Rattle.refusals.specs.declared.entry.EntryFault.TheVariants as entry;
ghost use Rattle.refusals.specs.declared.entry.TakeFault.TheVariants as taking;
ghost use Rattle.refusals.specs.Refusals.{of_value, of_entry, of_take};

use crate::carrier::CarrierFault;
use crate::field::FieldFault;
use crate::row::RowFault;
use crate::table::{Layer, Refusal};

// The number, from 1, of the value that is missing, too many, of another sort, past the pool or not there.
#[derive(Clone, Copy, PartialEq, Eq, Debug)]
pub struct ValueFault {
    pub number: usize,
}

// What an entry is refused for before it is a row.
#[derive(Clone, Copy, PartialEq, Eq, Debug)]
pub enum EntryFault {
    Value(ValueFault),
    Row(RowFault),
}

// What the taking of one value is refused for.
#[derive(Clone, Copy, PartialEq, Eq, Debug)]
pub enum TakeFault {
    Carrier(CarrierFault),
    Row(RowFault),
    Value(ValueFault),
}

impl From<ValueFault> for EntryFault {
    ghost from_gives = { λ e r. r ≡ entry.Value e };

    fn from(fault: ValueFault) -> EntryFault {
        EntryFault::Value(fault)
    }
}

impl From<RowFault> for EntryFault {
    ghost from_gives = { λ e r. r ≡ entry.Row e };

    fn from(fault: RowFault) -> EntryFault {
        EntryFault::Row(fault)
    }
}

impl From<FieldFault> for EntryFault {
    ghost from_gives = { λ e r. r ≡ entry.Row (Field e) };

    fn from(fault: FieldFault) -> EntryFault {
        EntryFault::Row(RowFault::Field(fault))
    }
}

impl From<CarrierFault> for TakeFault {
    ghost from_gives = { λ e r. r ≡ taking.Carrier e };

    fn from(fault: CarrierFault) -> TakeFault {
        TakeFault::Carrier(fault)
    }
}

impl From<RowFault> for TakeFault {
    ghost from_gives = { λ e r. r ≡ taking.Row e };

    fn from(fault: RowFault) -> TakeFault {
        TakeFault::Row(fault)
    }
}

impl From<ValueFault> for TakeFault {
    ghost from_gives = { λ e r. r ≡ taking.Value e };

    fn from(fault: ValueFault) -> TakeFault {
        TakeFault::Value(fault)
    }
}

impl From<ValueFault> for Refusal {
    ghost from_gives = { λ e r. r ≡ of_value e };

    fn from(fault: ValueFault) -> Refusal {
        Refusal {
            number: 31,
            layer: Layer::Draft,
            first: fault.number,
            second: 0,
        }
    }
}

impl ValueFault {
    // The number, the layer and the value's number.
    pub fn refusal(self) -> Refusal
        ensures { result ≡ of_value self }
    {
        self.into()
    }
}

impl From<EntryFault> for Refusal {
    ghost from_gives = { λ e r. r ≡ of_entry e };

    fn from(fault: EntryFault) -> Refusal {
        match fault {
            EntryFault::Value(fault) => fault.refusal(),
            EntryFault::Row(fault) => fault.refusal(),
        }
    }
}

impl EntryFault {
    pub fn refusal(self) -> Refusal
        ensures { result ≡ of_entry self }
    {
        self.into()
    }
}

impl From<TakeFault> for Refusal {
    ghost from_gives = { λ e r. r ≡ of_take e };

    fn from(fault: TakeFault) -> Refusal {
        match fault {
            TakeFault::Carrier(fault) => fault.refusal(),
            TakeFault::Row(fault) => fault.refusal(),
            TakeFault::Value(fault) => fault.refusal(),
        }
    }
}

impl TakeFault {
    pub fn refusal(self) -> Refusal
        ensures { result ≡ of_take self }
    {
        self.into()
    }
}
