// The roles of a kind in its book.
ghost use Rattle.std.specs.Prelude.{◌≡◌};
ghost use Rattle.layouts.specs.Meaning.{role_of, owns, follows};

use crate::book::Book;
use crate::kinds::Kind;

// Where a kind stands in a file: at its beginning, at its end, or between.
#[derive(Clone, Copy, PartialEq, Eq, Debug)]
pub enum Role {
    Header,
    Trailer,
    Body,
}

pub fn role_of<B: Book>(book: &B, kind: Kind) -> Role
    ensures { result ≡ role_of B.Meant.meaning kind.mark }
{
    if kind == book.header() {
        Role::Header
    } else if kind == book.trailer() {
        Role::Trailer
    } else {
        Role::Body
    }
}

// Owners and followers may have any role besides: the laws keep only followers from being header or trailer.
// Each is one line, and one function for both would need the part of the group as a parameter.
pub fn is_owner<B: Book>(book: &B, kind: Kind) -> bool
    ensures { result ≡ owns B.Meant.meaning.group kind.mark }
{
    book.group().is_some_and(|group| kind == group.owner)
}

pub fn is_follower<B: Book>(book: &B, kind: Kind) -> bool
    ensures { result ≡ follows B.Meant.meaning.group kind.mark }
{
    book.group().is_some_and(|group| kind == group.follower)
}
