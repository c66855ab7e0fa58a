// A source that reads lines of a form from lent bytes.
ghost use Rattle.std.specs.Prelude.{◌≡◌, ◌+◌, ◌/◌, ◌%◌, ◌<◌, length, MatchOption, MatchResult};
ghost use Rattle.std.specs.List.{flat_map};
ghost use Rattle.rows.specs.Lines.{opened, Whole, Formed, FirstBad};
ghost use Rattle.rows.specs.Laws.{FormLaw};
ghost use Rattle.rows.specs.Rows.{BrokenForm};
ghost use Rattle.rows.specs.Whole.{rows_of_all};

use crate::carriers::Source;
use crate::lines::{copy_held, line_count};
use forms::Form;
use refusals::CarrierFault;
use std::marker::PhantomData;

#[derive(Drop)]
pub struct Opened<'a, F> {
    bytes: &'a [u8],
    form: PhantomData<F>,
}

// The place after a place of a line; after the last, the first of the next line.
fn place_after(place: usize, size: usize) -> usize
    requires { place < size }
    ensures { result ≡ (place + 1) % size }
{
    if place + 1 < size { place + 1 } else { 0 }
}

// The first byte that may not stand where it stands, or the length if the last line is cut short.
fn first_bad<F: Form>(bytes: &[u8]) -> Option<usize>
    ensures { MatchOption result (Formed F.Form.good F.Form.size bytes.now) (FirstBad F.Form.good F.Form.size bytes.now) }
{
    let size = F::line_len();
    // The place in the line is counted on: a division for each byte takes a third of the time.
    let mut place = 0;
    for (i, byte) in bytes.iter().enumerate() {
        if !F::allows(place, *byte) {
            return Some(i);
        }
        place = place_after(place, size);
    }
    (bytes.len() % size != 0).then_some(bytes.len())
}

impl<'a, F: Form> Opened<'a, F> {
    // Opens bytes that are whole lines of the form: they are then what the rows that are read would be written as.
    pub fn open(bytes: &'a [u8]) -> Result<Opened<'a, F>, CarrierFault>
        ensures opened { MatchResult result (λ o. (o.bytes.now ≡ bytes.now) × Formed F.Form.good F.Form.size bytes.now × Whole (opened F.Form.decoded F.Form.size bytes.now) × (flat_map F.Form.encoded (opened F.Form.decoded F.Form.size bytes.now) ≡ bytes.now)) (BrokenForm F.Form.good F.Form.size bytes.now) }
        ensures law { FormLaw F.Form.size F.Form.encoded F.Form.decoded F.Form.good }
    {
        match first_bad::<F>(bytes) {
            Some(at) => Err(CarrierFault::BadForm(at)),
            None => Ok(Opened {
                bytes,
                form: PhantomData,
            }),
        }
    }
}

impl<'a, F: Form> Source for Opened<'a, F> {
    ghost rows = { λ o. opened F.Form.decoded F.Form.size o.bytes.now };

    ghost whole = { λ o. rows_of_all F.Form.decoded F.Form.size F.Form.whole o.bytes.now };

    fn count(&self) -> usize {
        line_count::<F>(self.bytes)
    }

    fn copy_row(&self, n: usize, out: &mut [u8; 750]) -> Result<(), CarrierFault> {
        copy_held::<F>(self.bytes, self.count(), n, out)
    }
}
