// The row that is looked at next.
use layouts::kinds::Kind;

// A row with the number and the kind that it is taken for. It may be any: what it must be is a premise of the clauses that need it.
#[derive(Clone, Copy)]
pub struct NextRow<'a> {
    pub number: usize,
    pub kind: Kind,
    pub row: &'a [u8; 750],
}
