// The verdict on an input: the letter of a book, LF, and a file of that book in the hexadecimal form.
ghost use Rattle.std.specs.Prelude.{◌≡◌};
ghost use Rattle.books.specs.Letters.{layout_of};
ghost use Rattle.verdicts.specs.Faults.{told};
ghost use Rattle.verdicts.specs.Input.{checked_lines, verdict_on};

use books::letters::Letter;
use files::checking::Accepted;
use files::reading::check_in;
use forms::Hexadecimal;
use layouts::book::Book;
use outgoing_receipts::OutgoingReceipts;
use recurring_charges::RecurringCharges;
use refusals::InputFault;
use returned_receipts::ReturnedReceipts;

// The most bytes of an input: a letter, LF and 40 lines.
pub const LARGEST_INPUT: usize = 60_042;

fn check_lines<B: Book>(book: &B, lines: &[u8]) -> Result<Accepted, InputFault>
    ensures { told result ≡ checked_lines B.Meant.meaning lines.now }
{
    check_in::<Hexadecimal, B>(book, lines)
}

// A trait with one generic method would say the book of a letter once for all programs, and be longer than these arms.
fn check_book(letter: Letter, lines: &[u8]) -> Result<Accepted, InputFault>
    ensures { told result ≡ checked_lines (layout_of letter) lines.now }
{
    match letter {
        Letter::P => check_lines(&OutgoingReceipts, lines),
        Letter::Q => check_lines(&ReturnedReceipts, lines),
        Letter::S => check_lines(&RecurringCharges, lines),
    }
}

// The count and the sum of the file, or the first fault of the input.
pub fn verdict(input: &[u8]) -> Result<Accepted, InputFault>
    ensures { told result ≡ verdict_on input.now }
{
    if input.len() > LARGEST_INPUT {
        return Err(InputFault::TooLong);
    }
    let [letter, b'\n', lines @ ..] = input else {
        return Err(InputFault::NoBook);
    };
    let Ok(letter) = Letter::try_from(*letter) else {
        return Err(InputFault::NoBook);
    };
    check_book(letter, lines)
}
