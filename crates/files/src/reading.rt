// The check of a file that lies in memory.
ghost use Rattle.std.specs.Prelude.{MatchResult};
ghost use Rattle.files.specs.Told.{AcceptedIn, RefusedIn};

use crate::checking::{Accepted, check};
use forms::Form;
use layouts::book::Book;
use refusals::InputFault;
use rows::Opened;

// Checks the rows that bytes hold in a form, or tells where the bytes break it.
pub fn check_in<F: Form, B: Book>(book: &B, bytes: &[u8]) -> Result<Accepted, InputFault>
    ensures { MatchResult result (AcceptedIn F.Form.good F.Form.decoded F.Form.size B.Meant.meaning bytes.now) (RefusedIn F.Form.good F.Form.decoded F.Form.size B.Meant.meaning bytes.now) }
{
    let opened: Opened<F> = Opened::open(bytes)?;
    Ok(check(book, &opened)?)
}
