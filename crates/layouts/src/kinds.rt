// Kinds of row, and what a book tells of them besides their fields.

// A kind of row. It goes by its mark, the byte in position 1: an enum of each book would ask more of whoever asks a book
// of a kind, since a book answers for every mark.
#[derive(Clone, Copy, PartialEq, Eq, Debug)]
pub struct Kind {
    pub mark: u8,
}

// A field of a kind, by its place among the kind's fields, from 0.
#[derive(Clone, Copy, PartialEq, Eq, Debug)]
pub struct Place {
    pub kind: Kind,
    pub field: usize,
}

// The kind that owns followers, their kind, and the fields that tie them.
#[derive(Clone, Copy, PartialEq, Eq, Debug)]
pub struct Group {
    pub owner: Kind,
    pub follower: Kind,
    pub owner_type: usize,
    pub owner_identifier: usize,
    pub follower_identifier: usize,
}
