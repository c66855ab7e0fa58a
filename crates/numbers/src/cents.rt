// Amounts of money.
ghost use Rattle.std.specs.Prelude.{◌≡◌, ◌+◌, ◌^◌, ◌<◌, ◌≤◌, Some, MatchOption};
ghost use Rattle.numbers.specs.Digits.{printed};
ghost use Rattle.numbers.specs.Cents.{cents_text};

use crate::digits::put_digits;
use std::fmt;

// A whole number of cents that 17 digits can write, so that two of them can be added.
#[derive(Clone, Copy, PartialEq, Eq, Debug)]
pub struct Cents {
    value: u64,
    ghost bounded: { value < 10 ^ 17 },
}

impl Cents {
    pub const LIMIT: u64 = 100_000_000_000_000_000;

    pub fn zero() -> Cents
        ensures { result.value ≡ 0 }
    {
        Cents { value: 0 }
    }

    // Nothing from 10^17 on.
    pub fn new(value: u64) -> Option<Cents>
        ensures { MatchOption result (10 ^ 17 ≤ value) (λ c. c.value ≡ value) }
    {
        if value < Self::LIMIT {
            Some(Cents { value })
        } else {
            None
        }
    }

    pub fn value(self) -> u64
        ensures { (result ≡ self.value) × (result < 10 ^ 17) }
    {
        self.value
    }

    // The sum, or nothing past 10^17 - 1.
    pub fn plus(self, other: Cents) -> Option<Cents>
        ensures { MatchOption result (10 ^ 17 ≤ self.value + other.value) (λ c. c.value ≡ self.value + other.value) }
    {
        Cents::new(self.value + other.value)
    }

    // As an amount field holds it.
    pub fn digits(self) -> [u8; 17]
        ensures { result ≡ printed 17 self.value }
    {
        let mut digits = [b'0'; 17];
        put_digits(&mut digits, self.value);
        digits
    }
}

// Units, a point and two digits.
impl fmt::Display for Cents {
    ghost output = { λ cents. Some (cents_text cents.value) };

    fn fmt<W: fmt::Write>(&self, f: &mut fmt::Formatter<W>) -> fmt::Result {
        let (whole, rest) = (self.value / 100, self.value % 100);
        write!(f, "{whole}.{rest:02}")
    }
}
