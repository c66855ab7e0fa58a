// The vocabulary of a field.

// What a draft works out by itself.
#[derive(Clone, Copy)]
pub enum Working {
    RowNumber,
    OwnerNumber,
    Total,
    Count,
}

// How the bytes of a field are to be read.
#[derive(Clone, Copy)]
pub enum Sort {
    // The printed content, then blanks.
    Constant(&'static [u8]),
    Blank,
    Text,
    // A text of a list.
    Word(&'static [&'static [u8]]),
    Number,
    // A number of a list.
    Code(&'static [u64]),
    // AAAAMMDD.
    Date,
    // A whole number of cents.
    Amount,
    // Twenty digits, too many for a number.
    LongDigits,
    Worked(Working),
}

// Positions count from 1. An optional field may be left unfilled.
#[derive(Clone, Copy)]
pub struct Field {
    pub start: usize,
    pub width: usize,
    pub sort: Sort,
    pub required: bool,
}

// What a field holds: constants and blanks no value, texts, words and long digits their bytes, the others a number.
#[derive(Clone, Copy, PartialEq, Eq, Debug)]
pub enum Content<'a> {
    Fixed,
    Number(u64),
    Text(&'a [u8]),
}
