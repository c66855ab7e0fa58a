// What a refusal tells, whatever layer it comes from.
ghost use Rattle.std.specs.Prelude.{Some};
ghost use Rattle.refusals.specs.Printed.{refusal_text};

use std::fmt;

// The layer that refuses.
#[derive(Clone, Copy, PartialEq, Eq, Debug)]
pub enum Layer {
    Carrier,
    Field,
    Row,
    File,
    Draft,
    Program,
}

// A refusal of the fixed table: its number, its layer, and the one or two values that it returns
// (a row and a position, or a single number and then 0).
#[derive(Clone, Copy, PartialEq, Eq, Debug)]
pub struct Refusal {
    // A number and no enum: a call answers a fault's enum, and this is the number that the fixed table prints for it.
    pub number: u8,
    pub layer: Layer,
    pub first: usize,
    pub second: usize,
}

impl fmt::Display for Refusal {
    ghost output = { λ refusal. Some (refusal_text refusal) };

    fn fmt<W: fmt::Write>(&self, f: &mut fmt::Formatter<W>) -> fmt::Result {
        let (number, row, position) = (self.number, self.first, self.second);
        write!(f, "refusal {number}, row {row}, position {position}")
    }
}
