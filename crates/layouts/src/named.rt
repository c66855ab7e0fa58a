// The bank's own names, for whoever compares a book with the bank's tables.
ghost use Rattle.std.specs.Prelude.{◌≡◌, map, length};
ghost use Rattle.layouts.specs.Layout.{kind_of};
ghost use Rattle.layouts.specs.Meaning.{kind_for};

use crate::book::Meant;
use crate::kinds::Kind;

pub trait Named: Meant {
    // The kinds, in the order of the bank's tables.
    fn kinds(&self) -> &'static [Kind]
        ensures { result.now ≡ map kind_for Self.Meant.meaning.kinds };

    // The name of the kind.
    fn title(&self, kind: Kind) -> &'static str;

    // The names of the kind's fields, one for each.
    fn names(&self, kind: Kind) -> &'static [&'static str]
        ensures { length result.now ≡ length (kind_of Self.Meant.meaning kind.mark).fields };
}
