// The check of a file, row by row.
ghost use Rattle.std.specs.Prelude.{◌≡◌, ℕ, ◌+◌, List, [], ◌∷◌, ◌++◌, length, IfOk, Some, None, Ok, MatchResult};
ghost use Rattle.refusals.specs.Refusals.{refusal_in, of_file};
ghost use Rattle.refusals.specs.Faults.{in_row, first_some};
ghost use Rattle.records.specs.Row.{Entry, entry_of};
ghost use Rattle.legality.specs.Before.{rows_of};
ghost use Rattle.legality.specs.Checks.{is_number, is_total, is_count, wrong, read_checks, work_checks, row_fault};
ghost use Rattle.legality.specs.File.{Legal, accepted, checked_after, checked, FileLaw};
ghost use Rattle.standings.specs.Standing.{Stands, IsNext, IsSumWith};
ghost use Rattle.files.specs.Told.{accepted_of, told, OneLegal};

use layouts::book::Book;
use numbers::cents::Cents;
use records::{find_kind, judge};
use refusals::FileFault;
use rows::Source;
use standings::next::NextRow;
use standings::progress::Progress;
use standings::worked::{Look, check_worked};

// How many rows a file has, and their summed amount.
#[derive(Clone, Copy, PartialEq, Eq, Debug)]
pub struct Accepted {
    pub rows: usize,
    pub sum: Cents,
}

// The next row, once it is read: its number, its mark, its place and its own fields are good.
fn read_next<'a, B: Book>(
    progress: &Progress,
    book: &B,
    row: &'a [u8; 750],
) -> Result<NextRow<'a>, FileFault>
    ensures refused { (es : List Entry) → Stands B.Meant.meaning progress.now es → refusal_in of_file result ≡ in_row (length es + 1) (first_some (read_checks B.Meant.meaning es row.now)) }
    ensures found { (es : List Entry) → Stands B.Meant.meaning progress.now es → IfOk result (IsNext B.Meant.meaning es) }
    ensures row { IfOk result (λ next. next.row.now ≡ row.now) }
{
    let number = progress.next_number()?;
    let kind = find_kind(book, number, row)?;
    progress.place(book, number, kind)?;
    judge(book, number, row)?;
    Ok(NextRow { number, kind, row })
}

fn check_numbers<B: Book>(progress: &Progress, book: &B, next: NextRow) -> Result<(), FileFault>
    ensures { (es : List Entry) → Stands B.Meant.meaning progress.now es → IsNext B.Meant.meaning es next.entry → refusal_in of_file result ≡ in_row next.entry.number (wrong 23 is_number B.Meant.meaning es next.entry.row.now) }
{
    // The sum is not looked at yet.
    let worked = progress.worked(book, next.number, next.kind, Cents::zero());
    check_worked(book.fields(next.kind), Look::Numbers, worked, next)
}

fn check_totals<B: Book>(
    progress: &Progress,
    book: &B,
    next: NextRow,
    sum: Cents,
) -> Result<(), FileFault>
    ensures { (es : List Entry) → Stands B.Meant.meaning progress.now es → IsNext B.Meant.meaning es next.entry → IsSumWith B.Meant.meaning es next.entry sum → refusal_in of_file result ≡ in_row next.entry.number (first_some (wrong 24 is_total B.Meant.meaning es next.entry.row.now ∷ (wrong 25 is_count B.Meant.meaning es next.entry.row.now ∷ []))) }
{
    let worked = progress.worked(book, next.number, next.kind, sum);
    check_worked(book.fields(next.kind), Look::Totals, worked, next)?;
    check_worked(book.fields(next.kind), Look::Counts, worked, next)
}

// The sum with a row that was read, once its owner and its worked fields are right.
fn work_out<B: Book>(progress: &Progress, book: &B, next: NextRow) -> Result<Cents, FileFault>
    ensures refused { (es : List Entry) → Stands B.Meant.meaning progress.now es → IsNext B.Meant.meaning es next.entry → refusal_in of_file result ≡ in_row next.entry.number (first_some (work_checks B.Meant.meaning es next.entry.row.now)) }
    ensures sum { (es : List Entry) → Stands B.Meant.meaning progress.now es → IsNext B.Meant.meaning es next.entry → IfOk result (IsSumWith B.Meant.meaning es next.entry) }
{
    progress.tie(book, next)?;
    check_numbers(progress, book, next)?;
    let sum = progress.sum_with(book, next)?;
    check_totals(progress, book, next, sum)?;
    Ok(sum)
}

fn take_row<B: Book>(progress: &mut Progress, book: &B, row: &[u8; 750]) -> Result<(), FileFault>
    ensures { (es : List Entry) → Stands B.Meant.meaning progress.old es → MatchResult result (λ _. (row_fault B.Meant.meaning es row.now ≡ None) × Stands B.Meant.meaning progress.new (es ++ entry_of B.Meant.meaning row.now ∷ [])) (λ e. row_fault B.Meant.meaning es row.now ≡ Some (of_file e)) }
{
    let next = read_next(progress, book, row)?;
    let sum = work_out(progress, book, next)?;
    progress.advance(book, next, sum);
    Ok(())
}

fn finish<B: Book>(progress: &Progress, book: &B) -> Result<Accepted, FileFault>
    ensures { (es : List Entry) → Stands B.Meant.meaning progress.now es → told result ≡ checked_after B.Meant.meaning es [] }
{
    let rows = progress.rows();
    if !progress.is_closed(book) {
        return Err(FileFault::NoTrailer { rows });
    }
    Ok(Accepted {
        rows,
        sum: progress.sum(),
    })
}

// Checks the rows of a source, one after the other, with room for a single row: their count and their sum, or the first refusal.
pub fn check<B: Book, S: Source>(book: &B, source: &S) -> Result<Accepted, FileFault>
    ensures answer { told result ≡ checked B.Meant.meaning (S.Source.rows source.now) }
    ensures law { FileLaw B.Meant.meaning }
    ensures backed { IfOk result (λ a. OneLegal B.Meant.meaning (S.Source.rows source.now) (accepted_of a)) }
    ensures passes { (es : List Entry) → Legal B.Meant.meaning es → rows_of B.Meant.meaning es ≡ S.Source.rows source.now → told result ≡ Ok (accepted B.Meant.meaning es) }
{
    let mut progress = Progress::new();
    let mut row = [0u8; 750];
    let count = source.count();
    // By their numbers: a source is asked for a row, and hands out no iterator.
    for n in 1..=count {
        source.copy_row(n, &mut row).unwrap();
        take_row(&mut progress, book, &row)?;
    }
    finish(&progress, book)
}
