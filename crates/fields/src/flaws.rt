// What is wrong inside a field, before its place in the row is known.

// An offset counts the field's bytes from 0.
#[derive(Clone, Copy)]
pub enum Flaw {
    // A constant or a blank differs.
    Differs(usize),
    // A byte outside the sort, or a text's first or last byte a blank.
    Byte(usize),
    // Required and not filled.
    Empty,
    // Wrong length, too large, no such code, word or date.
    Unfit,
}
