// Many calls on a draft, one after the other, and the law about its whole life.
ghost use Rattle.std.specs.Prelude.{map};
ghost use Rattle.drafts.specs.Reading.{ReadBackOn};
ghost use Rattle.drafts.specs.Runs.{asked_in, ExchangedOn, RanOn};
ghost use Rattle.drafts.specs.Standing.{CalledOn, WroteOn};

use crate::drafts::Draft;
use layouts::book::Book;
use lives::states::Call;
use records::Entry;
use refusals::DraftFault;
use rows::{Carrier, Source};

#[derive(Clone, Copy)]
pub struct Request<'a, 'b> {
    pub call: Call,
    pub entry: Entry<'a, 'b>,
}

// The law of exchange between entries and rows, for drafts of one book on any two carriers.
pub fn exchange_law<B: Book, C: Carrier, D: Carrier>()
    ensures { ExchangedOn B B.Meant.meaning C.Carrier D.Carrier }
{}

// And for what is read from any source.
pub fn reading_law<B: Book, C: Carrier, S: Source>()
    ensures { ReadBackOn B B.Meant.meaning C.Carrier S.Source.rows }
{}

// A request names its call by a value and no closure, since the contract of a run reads it.
fn apply<B: Book, C: Carrier>(draft: &mut Draft<B, C>, request: Request) -> Result<(), DraftFault>
    ensures wrote { WroteOn C.Carrier draft.old draft.new }
    ensures told { CalledOn B.Meant.meaning C.Carrier draft.old (asked_in request.entry).call (asked_in request.entry).handed result draft.new }
{
    match request.call {
        Call::Start => draft.start(request.entry),
        Call::Add => draft.add(request.entry),
        Call::Close => draft.close(request.entry),
    }
}

// Makes the calls in their order, accepted and refused in any mixture, and answers how many were accepted.
pub fn run<B: Book, C: Carrier>(draft: &mut Draft<B, C>, requests: &[Request]) -> usize
    ensures ran { RanOn B.Meant.meaning C.Carrier draft.old (map asked_in requests.now) result draft.new }
    ensures wrote { WroteOn C.Carrier draft.old draft.new }
    ensures law { ExchangedOn B B.Meant.meaning C.Carrier C.Carrier }
    ensures read { ReadBackOn B B.Meant.meaning C.Carrier C.Source.rows }
{
    // Counted in a loop, since each call changes the draft that the next one is made on.
    let mut accepted = 0;
    for request in requests {
        if apply(draft, *request).is_ok() {
            accepted += 1;
        }
    }
    accepted
}
