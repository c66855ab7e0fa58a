// A draft: a file that is written entry by entry on a carrier.
ghost use Rattle.std.specs.Prelude.{◌≡◌, ℕ, ◌+◌, ◌≤◌, List, [], ◌∷◌, length, IfOk};
ghost use Rattle.refusals.specs.Refusals.{refusal_in, of_draft};
ghost use Rattle.refusals.specs.Faults.{first_some};
ghost use Rattle.layouts.specs.Layout.{Layout};
ghost use Rattle.records.specs.Entries.{handed_of};
ghost use Rattle.legality.specs.Checks.{starts, adds, closes};
ghost use Rattle.standings.specs.Standing.{Stands};
ghost use Rattle.lives.specs.declared.states.State.TheVariants.{Fresh};
ghost use Rattle.lives.specs.Draft.{Moment, state_after};
ghost use Rattle.drafts.specs.Standing.{ShowsOn, CalledOn, Kept, WroteOn, admission, contents, Ready, Fit};
ghost use Rattle.lives.specs.States.{state_of, call_of};

use entries::{check_values, print};
use layouts::book::Book;
use layouts::kinds::Kind;
use lives::states::{Call, State};
use numbers::cents::Cents;
use records::{Entry, Worked, find_marked, judge};
use refusals::DraftFault;
use rows::Carrier;
use standings::next::NextRow;
use standings::progress::Progress;

#[derive(Drop)]
pub struct Draft<B, C> {
    book: B,
    carrier: C,
    state: State,
    progress: Progress,
}

// An entry that may be printed: its row's number and kind, and the state after it.
#[derive(Clone, Copy)]
struct Admitted {
    row_number: usize,
    kind: Kind,
    state: State,
}

// A row that may be pushed, and the sum with it.
#[derive(Clone, Copy)]
struct Prepared {
    row: [u8; 750],
    sum: Cents,
}

// What stands in the worked fields while the entry's own fields are looked at.
const UNWORKED: Worked = Worked {
    row_number: 0,
    owner_number: 0,
    total: 0,
    count: 0,
};

impl<B: Book, C: Carrier> Draft<B, C> {
    // A fresh draft. Its rows are numbered from 1 whatever the carrier holds.
    pub fn new(book: B, carrier: C) -> Draft<B, C>
        ensures carrier { result.carrier ≡ carrier }
        ensures book { result.book ≡ book }
        ensures state { result.state ≡ Fresh }
        ensures stands { Stands B.Meant.meaning result.progress [] }
    {
        Draft {
            book,
            carrier,
            state: State::Fresh,
            progress: Progress::new(),
        }
    }

    // The checks before the row is printed.
    fn admit(&self, call: Call, entry: Entry) -> Result<Admitted, DraftFault>
        ensures refused { (v : Moment) → ShowsOn B.Meant.meaning C.Carrier self.now v → refusal_in of_draft result ≡ first_some (admission B.Meant.meaning v (call_of call) (handed_of entry.entry)) }
        ensures state { IfOk result (λ a. state_of a.state ≡ state_after (call_of call) entry.entry.mark) }
        ensures kind { IfOk result (λ a. a.kind.mark ≡ entry.entry.mark) }
        ensures number { (v : Moment) → ShowsOn B.Meant.meaning C.Carrier self.now v → IfOk result (λ a. a.row_number ≡ length v.entries + 1) }
    {
        self.state.allow(call)?;
        let row_number = self.progress.next_number()?;
        let kind = find_marked(&self.book, row_number, entry.mark)?;
        check_values(&self.book, entry)?;
        let state = self.state.after(&self.book, row_number, call, kind)?;
        self.progress.place(&self.book, row_number, kind)?;
        Ok(Admitted {
            row_number,
            kind,
            state,
        })
    }

    // The row of an admitted entry: its fields, its conditions, its owner and the sum.
    // The total is known only once the entry's own amount was read from its row, so the row is printed again with it.
    fn prepare(&self, admitted: Admitted, entry: Entry) -> Result<Prepared, DraftFault>
        ensures refused { (v : Moment) → ShowsOn B.Meant.meaning C.Carrier self.now v → Ready B.Meant.meaning v (handed_of entry.entry) admitted.row_number admitted.kind.mark → refusal_in of_draft result ≡ first_some (contents B.Meant.meaning v (handed_of entry.entry)) }
        ensures fit { (v : Moment) → ShowsOn B.Meant.meaning C.Carrier self.now v → Ready B.Meant.meaning v (handed_of entry.entry) admitted.row_number admitted.kind.mark → IfOk result (λ p. Fit B.Meant.meaning v (handed_of entry.entry) p.row p.sum.value) }
    {
        let mut row = [b' '; 750];
        print(&self.book, entry, UNWORKED, admitted.row_number, &mut row)?;
        judge(&self.book, admitted.row_number, &row)?;
        let next = NextRow {
            number: admitted.row_number,
            kind: admitted.kind,
            row: &row,
        };
        self.progress.tie(&self.book, next)?;
        let sum = self.progress.sum_with(&self.book, next)?;
        let worked = self
            .progress
            .worked(&self.book, admitted.row_number, admitted.kind, sum);
        print(&self.book, entry, worked, admitted.row_number, &mut row)?;
        Ok(Prepared { row, sum })
    }

    // One call: the entry is taken, or refused and nothing changes.
    fn take_entry(&mut self, call: Call, entry: Entry) -> Result<(), DraftFault>
        ensures told { CalledOn B.Meant.meaning C.Carrier self.old (call_of call) (handed_of entry.entry) result self.new }
        ensures kept { Kept self.old self.new result }
        ensures wrote { WroteOn C.Carrier self.old self.new }
    {
        let admitted = self.admit(call, entry)?;
        let prepared = self.prepare(admitted, entry)?;
        self.carrier.push(&prepared.row)?;
        let next = NextRow {
            number: admitted.row_number,
            kind: admitted.kind,
            row: &prepared.row,
        };
        self.progress.advance(&self.book, next, prepared.sum);
        self.state = admitted.state;
        Ok(())
    }

    // Takes the header. The draft must be fresh.
    pub fn start(&mut self, entry: Entry) -> Result<(), DraftFault>
        ensures told { CalledOn B.Meant.meaning C.Carrier self.old starts (handed_of entry.entry) result self.new }
        ensures kept { Kept self.old self.new result }
        ensures wrote { WroteOn C.Carrier self.old self.new }
    {
        self.take_entry(Call::Start, entry)
    }

    // Takes an entry of any other kind than header and trailer. The draft must be open.
    pub fn add(&mut self, entry: Entry) -> Result<(), DraftFault>
        ensures told { CalledOn B.Meant.meaning C.Carrier self.old adds (handed_of entry.entry) result self.new }
        ensures kept { Kept self.old self.new result }
        ensures wrote { WroteOn C.Carrier self.old self.new }
    {
        self.take_entry(Call::Add, entry)
    }

    // Takes the trailer. The draft must be open, and is then closed.
    pub fn close(&mut self, entry: Entry) -> Result<(), DraftFault>
        ensures told { CalledOn B.Meant.meaning C.Carrier self.old closes (handed_of entry.entry) result self.new }
        ensures kept { Kept self.old self.new result }
        ensures wrote { WroteOn C.Carrier self.old self.new }
    {
        self.take_entry(Call::Close, entry)
    }

    // What the draft writes on.
    pub fn carrier(&self) -> &C
        ensures { result.now ≡ self.now.carrier }
    {
        &self.carrier
    }

    // The book and the carrier again.
    pub fn into_parts(self) -> (B, C)
        ensures book { result.0 ≡ self.book }
        ensures carrier { result.1 ≡ self.carrier }
    {
        (self.book, self.carrier)
    }
}
