// The rows of one form, written in another.
ghost use Rattle.std.specs.Prelude.{◌≡◌, ℕ, List, length, vec_len};
ghost use Rattle.transcribe.specs.Transcribed.{RoomFor, Rewritten, LacksRoom, Transcribed, encoded_in, good_in, size_in};

use crate::faults::TranscribeFault;
use crate::names::FormName;
use forms::{Flat, Form, Hexadecimal, Lined};
use refusals::CarrierFault;
use rows::{Opened, Source, write_all};
use std::alloc::Global;

// What was written, and how many rows it holds.
#[derive(Drop)]
pub struct Transcript {
    pub rows: usize,
    pub bytes: Vec<u8>,
}

// Memory for `rows` lines of a form.
fn memory_for<G: Form>(heap: Global, rows: usize) -> Result<Vec<u8>, TranscribeFault>
    ensures { RoomFor G.Form.size rows result }
{
    let length = rows
        .checked_mul(G::line_len())
        .ok_or(TranscribeFault::Memory)?;
    Ok(Vec::from_elem(heap, 0u8, length)?)
}

fn rewrite<F: Form, G: Form>(heap: Global, input: &[u8]) -> Result<Transcript, TranscribeFault>
    ensures rewritten { Rewritten F.Form.size F.Form.encoded F.Form.decoded F.Form.good G.Form.encoded input.now result }
    ensures lacks { LacksRoom F.Form.good F.Form.size input.now result }
{
    let opened: Opened<F> = Opened::open(input)?;
    let mut bytes = memory_for::<G>(heap, opened.count())?;
    let rows = write_all::<G, _>(&opened, bytes.as_mut_slice())?;
    Ok(Transcript { rows, bytes })
}

// A name chooses the type of a form, here and in `transcribe`: a trait with one generic method would be longer than these arms.
fn rewrite_to<F: Form>(
    heap: Global,
    to: FormName,
    input: &[u8],
) -> Result<Transcript, TranscribeFault>
    ensures rewritten { Rewritten F.Form.size F.Form.encoded F.Form.decoded F.Form.good (encoded_in to) input.now result }
    ensures lacks { LacksRoom F.Form.good F.Form.size input.now result }
{
    match to {
        FormName::Flat => rewrite::<F, Flat>(heap, input),
        FormName::Lined => rewrite::<F, Lined>(heap, input),
        FormName::Hexadecimal => rewrite::<F, Hexadecimal>(heap, input),
    }
}

// The rows that the input holds in the one form, all of them and in their order, in the other form.
pub fn transcribe(
    heap: Global,
    from: FormName,
    to: FormName,
    input: &[u8],
) -> Result<Transcript, TranscribeFault>
    ensures transcribed { Transcribed from to input.now result }
    ensures lacks { LacksRoom (good_in from) (size_in from) input.now result }
{
    match from {
        FormName::Flat => rewrite_to::<Flat>(heap, to, input),
        FormName::Lined => rewrite_to::<Lined>(heap, to, input),
        FormName::Hexadecimal => rewrite_to::<Hexadecimal>(heap, to, input),
    }
}
