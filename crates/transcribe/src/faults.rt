// Why nothing was transcribed.
ghost use Rattle.std.specs.Prelude.{◌≡◌};
ghost use Rattle.transcribe.specs.declared.faults.TranscribeFault.TheVariants.{Form, Memory};

use refusals::CarrierFault;
use std::alloc::AllocError;

#[derive(Clone, Copy)]
pub enum TranscribeFault {
    // The input breaks its form.
    Form(CarrierFault),
    // There was no memory for the output.
    Memory,
}

impl From<CarrierFault> for TranscribeFault {
    ghost from_gives = { λ fault r. r ≡ Form fault };

    fn from(fault: CarrierFault) -> TranscribeFault {
        TranscribeFault::Form(fault)
    }
}

impl From<AllocError> for TranscribeFault {
    ghost from_gives = { λ _ r. r ≡ Memory };

    fn from(_e: AllocError) -> TranscribeFault {
        TranscribeFault::Memory
    }
}
