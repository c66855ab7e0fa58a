// The line that tells a verdict.
ghost use Rattle.std.specs.Prelude.{◌≡◌, ℕ, ◌<◌, List, ◌++◌, length};
ghost use Rattle.verdicts.specs.Conferred.{Conferred};
ghost use Rattle.refusals.specs.Refusals.{of_input};
ghost use Rattle.verdicts.specs.Faults.{row_of, told};
ghost use Rattle.verdicts.specs.Input.{verdict_on};
ghost use Rattle.verdicts.specs.Printed.{ok_line, no_line, line_of};
ghost use Rattle.verdicts.specs.Lines.{bytes_of};

use crate::verdicts::verdict;
use files::checking::Accepted;
use numbers::put_digits;
use refusals::InputFault;

// One line of text with its LF. Its numbers have fixed widths, so it is one of two lengths, and no length stands beside it.
#[derive(Clone, Copy)]
pub enum Line {
    // As `OK rows=00003 total=00000000000125000`.
    InOrder([u8; 38]),
    // As `NO n=28 row=00000 pos=000`.
    Faulty([u8; 26]),
}

fn in_order(accepted: Accepted) -> [u8; 38]
    ensures { result ≡ ok_line accepted.rows accepted.sum.value }
{
    let mut line = *b"OK rows=00000 total=00000000000000000\n";
    put_digits(&mut line[8..13], accepted.rows as u64);
    put_digits(&mut line[20..37], accepted.sum.value());
    line
}

// The row that a fault is told with: bytes that break the form are told with the row of their line.
fn row_of(fault: InputFault) -> usize
    ensures { result ≡ row_of fault }
{
    match fault {
        InputFault::Form(broken) => broken.refusal().first / 1501 + 1,
        _ => fault.refusal().first,
    }
}

fn faulty(fault: InputFault) -> [u8; 26]
    ensures { result ≡ no_line (of_input fault).number (row_of fault) (of_input fault).second }
{
    let refusal = fault.refusal();
    let mut line = *b"NO n=00 row=00000 pos=000\n";
    put_digits(&mut line[5..7], refusal.number as u64);
    put_digits(&mut line[12..17], row_of(fault) as u64);
    put_digits(&mut line[22..25], refusal.second as u64);
    line
}

impl Line {
    pub fn telling(verdict: Result<Accepted, InputFault>) -> Line
        ensures { bytes_of result ≡ line_of (told verdict) }
    {
        match verdict {
            Ok(accepted) => Line::InOrder(in_order(accepted)),
            Err(fault) => Line::Faulty(faulty(fault)),
        }
    }

    pub fn bytes(&self) -> &[u8]
        ensures { result.now ≡ bytes_of self.now }
    {
        match self {
            Line::InOrder(line) => line,
            Line::Faulty(line) => line,
        }
    }
}

// The line for an input: the file in it is in order, with its rows and its total, or its first fault.
// Of an input that is too long only the front has to be there.
pub fn confer(input: &[u8]) -> Line
    ensures line { bytes_of result ≡ line_of (verdict_on input.now) }
    ensures law { Conferred input.now (bytes_of result) }
    ensures front { (more : List ℕ) → 60042 < length input.now → line_of (verdict_on (input.now ++ more)) ≡ bytes_of result }
{
    Line::telling(verdict(input))
}
