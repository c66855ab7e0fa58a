// The last row that owns followers.
ghost use Rattle.std.specs.Prelude.{◌≡◌, Some};
ghost use Rattle.refusals.specs.Refusals.{refusal_in, of_file};
ghost use Rattle.refusals.specs.Faults.{in_row};
ghost use Rattle.layouts.specs.Layout as s;
ghost use Rattle.layouts.specs.Meaning.{group_in};
ghost use Rattle.standings.specs.Standing.{bound_by};

use crate::held::field_of;
use crate::next::NextRow;
use fields::is_same;
use layouts::book::Book;
use layouts::kinds::Group;
use records::{number_in, text_in};
use refusals::FileFault;

#[derive(Clone, Copy)]
pub struct Owner {
    pub(crate) number: usize,
    pub(crate) row: [u8; 750],
}

impl Owner {
    // Whether a row of a follower is bound to this owner.
    pub(crate) fn bind<B: Book>(
        &self,
        book: &B,
        group: Group,
        next: NextRow,
    ) -> Result<(), FileFault>
        ensures { (g : s.Group) → Some group ≡ group_in (Some g) → refusal_in of_file result ≡ in_row next.entry.number (bound_by B.Meant.meaning g self.now.row next.entry.row.now) }
    {
        let charge = field_of(book, group.owner, group.owner_type);
        if number_in(&charge, &self.row) != 2 {
            return Err(FileFault::OwnerType { row: next.number });
        }
        let own = field_of(book, group.owner, group.owner_identifier);
        let copy = field_of(book, group.follower, group.follower_identifier);
        if !is_same(text_in(&own, &self.row), text_in(&copy, next.row)) {
            return Err(FileFault::OtherIdentifier {
                row: next.number,
                position: copy.start,
            });
        }
        Ok(())
    }
}
