// The portal stop: a carrier over any other, of at most 50,000 places.
ghost use Rattle.std.specs.Prelude.{◌≡◌, ℕ, min};

use crate::carriers::{Carrier, Source};
use refusals::CarrierFault;

pub const PORTAL_PLACES: usize = 50_000;

#[derive(Drop)]
pub struct PortalStop<C> {
    pub below: C,
}

impl<C: Carrier> PortalStop<C> {
    pub fn over(below: C) -> PortalStop<C>
        ensures { result.below ≡ below }
    {
        PortalStop { below }
    }

    pub fn into_below(self) -> C
        ensures { result ≡ self.below }
    {
        let PortalStop { below } = self;
        below
    }
}

impl<C: Carrier> Source for PortalStop<C> {
    ghost rows = { λ s. C.Source.rows s.below };

    ghost whole = { λ s. C.Source.whole s.below };

    fn count(&self) -> usize {
        self.below.count()
    }

    fn copy_row(&self, n: usize, out: &mut [u8; 750]) -> Result<(), CarrierFault> {
        self.below.copy_row(n, out)
    }
}

impl<C: Carrier> Carrier for PortalStop<C> {
    ghost places = { λ s. min (C.Carrier.places s.below) 50000 };

    ghost memory = { λ s. C.Carrier.memory s.below };

    ghost size = { C.Carrier.size };

    ghost line = { C.Carrier.line };

    ghost lenders = { λ s. C.Carrier.lenders s.below };

    fn places(&self) -> usize {
        self.below.places().min(PORTAL_PLACES)
    }

    fn push(&mut self, row: &[u8; 750]) -> Result<(), CarrierFault> {
        let places = self.places();
        if self.count() < places {
            self.below.push(row)
        } else {
            Err(CarrierFault::Full(places))
        }
    }
}
