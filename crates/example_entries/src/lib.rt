// Entries of book P for the examples: a header, a charge of 1,250.00, a follower of it, and a trailer.
#![tactic(auto)]

ghost use Rattle.std.specs.Prelude.{◌≡◌};
ghost use Rattle.records.specs.Entries.{handed_of, meant};
ghost use Rattle.example_entries.specs.Examples.{header_entry, charge_entry, follower_entry, trailer_entry};

use records::{Entry, Value};

// The texts, one after the other: a bank, a key, an identifier, a name, a value, and an account of zeros.
const POOL: &[u8] = b"12345678key@breadBREAD-0001FilialCentro00000000000000000000";

const EMPTY: Value = Value::Text {
    place: 0,
    length: 0,
};

const IDENTIFIER: Value = Value::Text {
    place: 17,
    length: 10,
};

static HEADER: [Value; 10] = [
    Value::Text {
        place: 0,
        length: 8,
    },
    Value::Number(2),
    Value::Number(12_345_678_000_195),
    EMPTY,
    EMPTY,
    EMPTY,
    EMPTY,
    Value::Number(20_240_229),
    EMPTY,
    EMPTY,
];

static CHARGE: [Value; 23] = [
    Value::Number(2),
    Value::Number(12_345_678_000_195),
    Value::Number(0),
    Value::Text {
        place: 39,
        length: 20,
    },
    EMPTY,
    Value::Text {
        place: 8,
        length: 9,
    },
    Value::Number(2),
    Value::Number(1),
    IDENTIFIER,
    Value::Number(0),
    Value::Number(20_241_231),
    EMPTY,
    Value::Number(125_000),
    Value::Number(0),
    Value::Number(0),
    Value::Number(0),
    EMPTY,
    Value::Number(0),
    Value::Number(0),
    EMPTY,
    EMPTY,
    EMPTY,
    EMPTY,
];

static FOLLOWER: [Value; 6] = [
    IDENTIFIER,
    Value::Text {
        place: 27,
        length: 6,
    },
    Value::Text {
        place: 33,
        length: 6,
    },
    EMPTY,
    EMPTY,
    EMPTY,
];

pub fn header() -> Entry<'static, 'static>
    ensures { meant (handed_of result) ≡ header_entry }
{
    Entry {
        mark: b'0',
        values: &HEADER,
        pool: POOL,
    }
}

pub fn charge() -> Entry<'static, 'static>
    ensures { meant (handed_of result) ≡ charge_entry }
{
    Entry {
        mark: b'1',
        values: &CHARGE,
        pool: POOL,
    }
}

pub fn follower() -> Entry<'static, 'static>
    ensures { meant (handed_of result) ≡ follower_entry }
{
    Entry {
        mark: b'2',
        values: &FOLLOWER,
        pool: POOL,
    }
}

pub fn trailer() -> Entry<'static, 'static>
    ensures { meant (handed_of result) ≡ trailer_entry }
{
    Entry {
        mark: b'9',
        values: &[],
        pool: POOL,
    }
}
