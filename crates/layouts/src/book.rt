// A book: its meaning, its laws, and the questions that each answer their part of the meaning.
ghost use Rattle.std.specs.Prelude.{◌≡◌, ℕ, map, Option};
ghost use Rattle.fields.specs.Field.{any_of};
ghost use Rattle.fields.specs.Meaning.{field_of};
ghost use Rattle.layouts.specs.declared.kinds.Place.{Place};
ghost use Rattle.layouts.specs.Layout.{Layout, kind_of};
ghost use Rattle.layouts.specs.Lawful.{Lawful};
ghost use Rattle.layouts.specs.Meaning.{kind_marked, group_in, largest_in, place_in};

use crate::conditions::Condition;
use crate::kinds::{Group, Kind, Place};
use fields::field::Field;

// What a book means, the laws that it keeps, and what it fixes for itself.
pub trait Meant {
    ghost meaning: { Layout };

    ghost GROUP_LIMIT: { ℕ };

    ghost SUMMED: { Option Place };

    // The most followers that one owner may have; 0 where no kind owns followers.
    const GROUP_LIMIT: usize;

    // The amount that is summed, if any.
    const SUMMED: Option<Place>;

    ghost lawful: { Lawful meaning };

    ghost limited: { GROUP_LIMIT ≡ largest_in meaning.group };

    ghost sums: { SUMMED ≡ place_in meaning.summed };
}

// The questions that each answer a part of the meaning.
// A kind that is not of the book has no fields and no conditions, follows none and is not counted.
pub trait Book: Meant {
    fn kind_of(&self, mark: u8) -> Option<Kind>
        ensures { result ≡ kind_marked Self.Meant.meaning mark };

    fn fields(&self, kind: Kind) -> &'static [Field]
        ensures { map field_of result.now ≡ (kind_of Self.Meant.meaning kind.mark).fields };

    fn conditions(&self, kind: Kind) -> &'static [Condition]
        ensures { result.now ≡ (kind_of Self.Meant.meaning kind.mark).conditions };

    // Whether a row of the kind may stand directly after one of the kind `before`.
    fn may_follow(&self, kind: Kind, before: Kind) -> bool
        ensures { result ≡ any_of (kind_of Self.Meant.meaning kind.mark).after before.mark };

    fn header(&self) -> Kind
        ensures { result.mark ≡ Self.Meant.meaning.header };

    fn trailer(&self) -> Kind
        ensures { result.mark ≡ Self.Meant.meaning.trailer };

    fn group(&self) -> Option<Group>
        ensures { result ≡ group_in Self.Meant.meaning.group };

    // Whether the trailer counts rows of the kind.
    fn is_counted(&self, kind: Kind) -> bool
        ensures { result ≡ any_of Self.Meant.meaning.counted kind.mark };
}

pub fn largest_group<B: Meant>(_book: &B) -> usize
    ensures { result ≡ largest_in B.Meant.meaning.group }
{
    B::GROUP_LIMIT
}

pub fn summed_place<B: Meant>(_book: &B) -> Option<Place>
    ensures { result ≡ place_in B.Meant.meaning.summed }
{
    B::SUMMED
}
