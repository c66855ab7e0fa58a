// Entries, as they are handed in.
ghost use Rattle.std.specs.Prelude.{◌≡◌};
ghost use Rattle.fields.specs.Meaning.{working_of};
ghost use Rattle.records.specs.Worked.{worked_of};

use fields::field::Working;

// One value of an entry. A text, a word or long digits lie in the pool of bytes beside the values.
// They go by place and length, not as a slice: whoever hands in one past the pool is told so by the table of refusals (31).
#[derive(Clone, Copy, PartialEq, Eq, Debug)]
pub enum Value {
    Number(u64),
    Text { place: usize, length: usize },
}

// A kind, by its mark, and one value for each of its fields that is not constant, blank or worked, in order.
// The mark is any byte, and no enum: one that is no kind's of the book is refused.
#[derive(Clone, Copy)]
pub struct Entry<'a, 'b> {
    pub mark: u8,
    pub values: &'a [Value],
    pub pool: &'b [u8],
}

// The numbers that a draft works out for a row: its place, its owner's place, and a trailer's sum and count.
#[derive(Clone, Copy, PartialEq, Eq, Debug)]
pub struct Worked {
    pub row_number: u64,
    pub owner_number: u64,
    pub total: u64,
    pub count: u64,
}

impl Worked {
    pub fn number(self, working: Working) -> u64
        ensures { result ≡ worked_of self (working_of working) }
    {
        match working {
            Working::RowNumber => self.row_number,
            Working::OwnerNumber => self.owner_number,
            Working::Total => self.total,
            Working::Count => self.count,
        }
    }
}
