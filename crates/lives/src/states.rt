// The states of a draft, and the calls on it.
ghost use Rattle.std.specs.Prelude.{◌≡◌, ◌&&◌, IfOk};
ghost use Rattle.refusals.specs.Refusals.{refusal, refusal_in, of_file, of_draft};
ghost use Rattle.refusals.specs.Faults.{in_row, unless, fault};
ghost use Rattle.legality.specs.Checks.{asks};
ghost use Rattle.lives.specs.Draft.{allows, state_after};
ghost use Rattle.lives.specs.States.{state_of, call_of};

use layouts::book::Book;
use layouts::kinds::Kind;
use layouts::roles::{Role, role_of};
use refusals::{DraftFault, FileFault};

// A draft is fresh, open after some kind of row, or closed.
#[derive(Clone, Copy, PartialEq, Eq, Debug)]
pub enum State {
    Fresh,
    Open(Kind),
    Closed,
}

#[derive(Clone, Copy, PartialEq, Eq, Debug)]
pub enum Call {
    Start,
    Add,
    Close,
}

impl State {
    // Start needs a fresh draft, add and close an open one.
    pub fn allow(self, call: Call) -> Result<(), DraftFault>
        ensures { refusal_in of_draft result ≡ unless (allows (state_of self) (call_of call)) (refusal 30 0 0) }
    {
        match (self, call) {
            (State::Fresh, Call::Start) => Ok(()),
            (State::Open(_), Call::Add | Call::Close) => Ok(()),
            _ => Err(DraftFault::WrongState),
        }
    }

    // The state after a call that takes an entry of the kind: start takes the header, close the trailer, add any other.
    pub fn after<B: Book>(
        self,
        book: &B,
        row_number: usize,
        call: Call,
        kind: Kind,
    ) -> Result<State, FileFault>
        ensures refused { refusal_in of_file result ≡ in_row row_number (unless (allows (state_of self) (call_of call) && asks B.Meant.meaning (call_of call) kind.mark) (fault 20 1)) }
        ensures after { IfOk result (λ s. state_of s ≡ state_after (call_of call) kind.mark) }
    {
        match (self, call, role_of(book, kind)) {
            (State::Fresh, Call::Start, Role::Header) => Ok(State::Open(kind)),
            (State::Open(_), Call::Add, Role::Body) => Ok(State::Open(kind)),
            (State::Open(_), Call::Close, Role::Trailer) => Ok(State::Closed),
            _ => Err(FileFault::OutOfOrder { row: row_number }),
        }
    }
}
