// What is kept of the entries before: enough to check the next row and to work out its fields.
ghost use Rattle.std.specs.Prelude.{◌≡◌, ◌+◌, ◌^◌, ◌≤◌, true, List, [], ◌∷◌, ◌++◌, length, IfOk, MatchOption};
ghost use Rattle.refusals.specs.Refusals.{refusal_in, of_file};
ghost use Rattle.refusals.specs.Faults.{in_row, first_some};
ghost use Rattle.fields.specs.Field.{Working};
ghost use Rattle.layouts.specs.Layout.{Layout};
ghost use Rattle.records.specs.Row.{Entry};
ghost use Rattle.legality.specs.Before.{count_of, sum_of, reckon};
ghost use Rattle.legality.specs.Checks.{row27, may_stand, order20, full, group21, owner22, summed_start, sum26, is_number};
ghost use Rattle.legality.specs.File.{closed};
ghost use Rattle.legality.specs.Progress.{followers_in};
ghost use Rattle.standings.specs.Standing.{number_in, Stands, IsRead, IsNext, IsSumWith, entry_of_next, with_next};
ghost use Rattle.records.specs.Worked.{worked_of};

use crate::held::{amount_in, field_of};
use crate::next::NextRow;
use crate::owner::Owner;
use layouts::book::{Book, largest_group, summed_place};
use layouts::kinds::Kind;
use layouts::roles::{is_follower, is_owner};
use numbers::cents::Cents;
use records::Worked;
use refusals::FileFault;

// The entries that it stands for are a premise of each clause, and no ghost field: that field would ask `advance`'s callers for their proof.
#[derive(Clone, Copy)]
pub struct Progress {
    rows: usize,
    last: Option<Kind>,
    owner: Option<Owner>,
    // The followers since the owner.
    following: usize,
    sum: Cents,
    counted: usize,
}

impl Progress {
    pub fn new() -> Progress
        ensures { (l : Layout) → Stands l result [] }
    {
        Progress {
            rows: 0,
            last: None,
            owner: None,
            following: 0,
            sum: Cents::zero(),
            counted: 0,
        }
    }

    // How many rows came before.
    pub fn rows(&self) -> usize
        ensures { (l : Layout) (es : List Entry) → Stands l self.now es → result ≡ length es }
    {
        self.rows
    }

    // What they sum up to.
    pub fn sum(&self) -> Cents
        ensures { (l : Layout) (es : List Entry) → Stands l self.now es → result.value ≡ sum_of l es }
    {
        self.sum
    }

    // Whether the last of them is a trailer.
    pub fn is_closed<B: Book>(&self, book: &B) -> bool
        ensures { (es : List Entry) → Stands B.Meant.meaning self.now es → result ≡ closed B.Meant.meaning es }
    {
        self.last.is_some_and(|kind| kind == book.trailer())
    }

    // The number of the row that would come next.
    pub fn next_number(&self) -> Result<usize, FileFault>
        ensures refused { (l : Layout) (es : List Entry) → Stands l self.now es → refusal_in of_file result ≡ in_row (length es + 1) (row27 (length es + 1)) }
        ensures number { (l : Layout) (es : List Entry) → Stands l self.now es → IfOk result (λ n. n ≡ length es + 1) }
        ensures few { IfOk result (λ n. n ≤ 65535) }
    {
        let number = self.rows.saturating_add(1);
        if number > 65_535 {
            return Err(FileFault::TooManyRows { row: number });
        }
        Ok(number)
    }

    fn may_stand<B: Book>(&self, book: &B, kind: Kind) -> bool
        ensures { (es : List Entry) → Stands B.Meant.meaning self.now es → result ≡ may_stand B.Meant.meaning es kind.mark }
    {
        match self.last {
            Some(last) => book.may_follow(kind, last),
            None => kind == book.header(),
        }
    }

    fn is_full<B: Book>(&self, book: &B, kind: Kind) -> bool
        ensures { (es : List Entry) → Stands B.Meant.meaning self.now es → result ≡ full B.Meant.meaning.group es kind.mark }
    {
        is_follower(book, kind) && largest_group(book) <= self.following
    }

    // Whether a row of the kind may come next: by the order of kinds, and as one more follower.
    pub fn place<B: Book>(&self, book: &B, row_number: usize, kind: Kind) -> Result<(), FileFault>
        ensures { (es : List Entry) → Stands B.Meant.meaning self.now es → refusal_in of_file result ≡ in_row row_number (first_some (order20 B.Meant.meaning es kind.mark ∷ (group21 B.Meant.meaning es kind.mark ∷ []))) }
    {
        if !self.may_stand(book, kind) {
            return Err(FileFault::OutOfOrder { row: row_number });
        }
        if self.is_full(book, kind) {
            return Err(FileFault::GroupFull { row: row_number });
        }
        Ok(())
    }

    // Whether a good row is bound to the last owner, where its kind is that of followers.
    pub fn tie<B: Book>(&self, book: &B, next: NextRow) -> Result<(), FileFault>
        ensures { (es : List Entry) → Stands B.Meant.meaning self.now es → IsRead B.Meant.meaning next.entry → refusal_in of_file result ≡ in_row next.entry.number (owner22 B.Meant.meaning es (entry_of_next B.Meant.meaning next.entry)) }
    {
        let Some(group) = book.group() else {
            return Ok(());
        };
        if next.kind != group.follower {
            return Ok(());
        }
        let Some(owner) = &self.owner else {
            return Err(FileFault::OwnerType { row: next.number });
        };
        owner.bind(book, group, next)
    }

    // The sum with a good row.
    pub fn sum_with<B: Book>(&self, book: &B, next: NextRow) -> Result<Cents, FileFault>
        ensures refused { (es : List Entry) → Stands B.Meant.meaning self.now es → IsRead B.Meant.meaning next.entry → refusal_in of_file result ≡ in_row next.entry.number (sum26 B.Meant.meaning es (entry_of_next B.Meant.meaning next.entry)) }
        ensures sum { (es : List Entry) → Stands B.Meant.meaning self.now es → IsRead B.Meant.meaning next.entry → IfOk result (IsSumWith B.Meant.meaning es next.entry) }
    {
        plus(self.sum, amount_in(book, next)).ok_or_else(|| FileFault::SumTooLarge {
            row: next.number,
            position: summed_start(book),
        })
    }

    // The rows that the trailer counts, with one of the kind.
    fn counted_with<B: Book>(&self, book: &B, kind: Kind) -> usize
        ensures { (es : List Entry) (e : Entry) → Stands B.Meant.meaning self.now es → kind.mark ≡ e.mark → result ≡ count_of B.Meant.meaning.counted (es ++ e ∷ []) }
    {
        if book.is_counted(kind) {
            return self.counted.wrapping_add(1);
        }
        self.counted
    }

    // The followers since the last owner, with a row of the kind.
    fn following_with<B: Book>(&self, book: &B, kind: Kind) -> usize
        ensures { (es : List Entry) (e : Entry) → Stands B.Meant.meaning self.now es → kind.mark ≡ e.mark → result ≡ followers_in B.Meant.meaning.group (es ++ e ∷ []) }
    {
        if is_owner(book, kind) {
            return 0;
        }
        if is_follower(book, kind) {
            return self.following.wrapping_add(1);
        }
        self.following
    }

    fn owner_number(&self) -> usize
        ensures { result ≡ number_in self.now.owner }
    {
        self.owner.as_ref().map_or(0, |owner| owner.number)
    }

    // What the worked fields of the next row hold, which is of the kind and brings the sum to `sum`. Like `place`, it takes a number and a kind: a draft has no row yet.
    pub fn worked<B: Book>(&self, book: &B, row_number: usize, kind: Kind, sum: Cents) -> Worked
        ensures numbers { (es : List Entry) (e : Entry) → Stands B.Meant.meaning self.now es → row_number ≡ length es + 1 → kind.mark ≡ e.mark → (k : Working) → is_number k ≡ true → worked_of result k ≡ reckon B.Meant.meaning es e k }
        ensures all { (es : List Entry) (e : Entry) → Stands B.Meant.meaning self.now es → row_number ≡ length es + 1 → kind.mark ≡ e.mark → sum.value ≡ sum_of B.Meant.meaning (es ++ e ∷ []) → (k : Working) → worked_of result k ≡ reckon B.Meant.meaning es e k }
    {
        Worked {
            row_number: row_number as u64,
            owner_number: self.owner_number() as u64,
            total: sum.value(),
            count: self.counted_with(book, kind) as u64,
        }
    }

    // Takes a good row, which brings the sum to `sum`.
    pub fn advance<B: Book>(&mut self, book: &B, next: NextRow, sum: Cents)
        ensures { (es : List Entry) → Stands B.Meant.meaning self.old es → IsNext B.Meant.meaning es next.entry → IsSumWith B.Meant.meaning es next.entry sum → Stands B.Meant.meaning self.new (with_next B.Meant.meaning es next.entry) }
    {
        let counted = self.counted_with(book, next.kind);
        let following = self.following_with(book, next.kind);
        if is_owner(book, next.kind) {
            self.owner = Some(Owner {
                number: next.number,
                row: *next.row,
            });
        }
        self.rows = next.number;
        self.last = Some(next.kind);
        self.following = following;
        self.sum = sum;
        self.counted = counted;
    }
}

// The sum of the two, or nothing past 10^17 - 1.
fn plus(sum: Cents, amount: u64) -> Option<Cents>
    ensures { MatchOption result (10 ^ 17 ≤ sum.value + amount) (λ c. c.value ≡ sum.value + amount) }
{
    Cents::new(amount).and_then(|amount| sum.plus(amount))
}

// Where the amount that is summed starts.
fn summed_start<B: Book>(book: &B) -> usize
    ensures { result ≡ summed_start B.Meant.meaning B.Meant.meaning.summed }
{
    summed_place(book).map_or(0, |place| field_of(book, place.kind, place.field).start)
}
