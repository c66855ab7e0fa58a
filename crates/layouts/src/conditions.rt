// Conditions between the fields of a row: if the premise holds, so does the claim.
// Fields go by their places among the kind's fields, from 0.

#[derive(Clone, Copy, PartialEq, Eq, Debug)]
pub enum Premise {
    Always,
    // A code is the given one.
    IfCode(usize, u64),
    // A code is one of the two.
    IfEither(usize, u64, u64),
    IfFilled(usize),
}

#[derive(Clone, Copy, PartialEq, Eq, Debug)]
pub enum Claim {
    IsFilled(usize),
    NotFilled(usize),
    // A code is the given one.
    IsCode(usize, u64),
    // The first amount is at most the second.
    AtMost(usize, usize),
    // A text has at most so many bytes.
    Short(usize, usize),
    // Two texts together have at most so many bytes.
    ShortBoth(usize, usize, usize),
}

#[derive(Clone, Copy, PartialEq, Eq, Debug)]
pub struct Condition {
    pub premise: Premise,
    pub claim: Claim,
}
