// What a call on a draft is refused for. Each case carries the lower layer's fault whole.
ghost use Rattle.std.specs.Prelude.{◌≡◌};
ghost use Rattle.refusals.specs.declared.draft.DraftFault.TheVariants as draft;
ghost use Rattle.refusals.specs.declared.row.RowFault.TheVariants.{Field};
ghost use Rattle.refusals.specs.Refusals.{of_draft, of_entry, draft_of};

use crate::carrier::CarrierFault;
use crate::entry::{EntryFault, ValueFault};
use crate::field::FieldFault;
use crate::file::FileFault;
use crate::row::RowFault;
use crate::table::{Layer, Refusal};

#[derive(Clone, Copy, PartialEq, Eq, Debug)]
pub enum DraftFault {
    // The call is not for the draft's state.
    WrongState,
    Value(ValueFault),
    Row(RowFault),
    File(FileFault),
    Carrier(CarrierFault),
}

impl From<ValueFault> for DraftFault {
    ghost from_gives = { λ e r. r ≡ draft.Value e };

    fn from(fault: ValueFault) -> DraftFault {
        DraftFault::Value(fault)
    }
}

impl From<RowFault> for DraftFault {
    ghost from_gives = { λ e r. r ≡ draft.Row e };

    fn from(fault: RowFault) -> DraftFault {
        DraftFault::Row(fault)
    }
}

impl From<FileFault> for DraftFault {
    ghost from_gives = { λ e r. r ≡ draft.File e };

    fn from(fault: FileFault) -> DraftFault {
        DraftFault::File(fault)
    }
}

impl From<CarrierFault> for DraftFault {
    ghost from_gives = { λ e r. r ≡ draft.Carrier e };

    fn from(fault: CarrierFault) -> DraftFault {
        DraftFault::Carrier(fault)
    }
}

impl From<EntryFault> for DraftFault {
    ghost from_gives = { λ e r. (of_draft r ≡ of_entry e) × (r ≡ draft_of e) };

    fn from(fault: EntryFault) -> DraftFault {
        match fault {
            EntryFault::Value(fault) => DraftFault::Value(fault),
            EntryFault::Row(fault) => DraftFault::Row(fault),
        }
    }
}

// A field's fault, inside that of its row.
impl From<FieldFault> for DraftFault {
    ghost from_gives = { λ e r. r ≡ draft.Row (Field e) };

    fn from(fault: FieldFault) -> DraftFault {
        DraftFault::Row(RowFault::Field(fault))
    }
}

impl From<DraftFault> for Refusal {
    ghost from_gives = { λ e r. r ≡ of_draft e };

    fn from(fault: DraftFault) -> Refusal {
        match fault {
            DraftFault::WrongState => Refusal {
                number: 30,
                layer: Layer::Draft,
                first: 0,
                second: 0,
            },
            DraftFault::Value(fault) => fault.refusal(),
            DraftFault::Row(fault) => fault.refusal(),
            DraftFault::File(fault) => fault.refusal(),
            DraftFault::Carrier(fault) => fault.refusal(),
        }
    }
}

impl DraftFault {
    // The number, the layer and the two values that are returned.
    pub fn refusal(self) -> Refusal
        ensures { result ≡ of_draft self }
    {
        self.into()
    }
}
