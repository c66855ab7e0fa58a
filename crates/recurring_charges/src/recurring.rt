// The file that the receiver of money sends to the bank, to issue, cancel and change recurrences of Pix Automático.
ghost use Rattle.std.specs.Prelude.{◌≡◌, None};
ghost use Rattle.recurring_charges.specs.BookS.{layout_s};
ghost use Rattle.recurring_charges.specs.Laws;

use fields::field::{Field, Sort, Working};
use layouts::book::{Book, Meant};
use layouts::conditions::{Claim, Condition, Premise};
use layouts::kinds::{Group, Kind, Place};

// Book S.
#[derive(Clone, Copy, PartialEq, Eq, Debug)]
pub struct RecurringCharges;

pub const HEADER: Kind = Kind { mark: b'0' };

// One recurrence to issue, cancel or change.
pub const RECURRENCE: Kind = Kind { mark: b'A' };

pub const TRAILER: Kind = Kind { mark: b'9' };

#[rattlefmt::skip]
static HEADER_FIELDS: [Field; 20] = [
    Field { start: 1, width: 1, sort: Sort::Constant(b"0"), required: true },
    Field { start: 2, width: 1, sort: Sort::Constant(b"1"), required: true },
    Field { start: 3, width: 7, sort: Sort::Constant(b"REMESSA"), required: true },
    Field { start: 10, width: 2, sort: Sort::Constant(b"02"), required: true },
    Field { start: 12, width: 15, sort: Sort::Constant(b"PIX"), required: true },
    Field { start: 27, width: 8, sort: Sort::Text, required: true },
    Field { start: 35, width: 2, sort: Sort::Code(&[2]), required: true },
    Field { start: 37, width: 14, sort: Sort::Number, required: true },
    Field { start: 51, width: 4, sort: Sort::Number, required: false },
    Field { start: 55, width: 20, sort: Sort::LongDigits, required: false },
    Field { start: 75, width: 4, sort: Sort::Word(&[b"CACC", b"SVGS", b"TRAN"]), required: false },
    Field { start: 79, width: 77, sort: Sort::Text, required: false },
    Field { start: 156, width: 8, sort: Sort::Date, required: true },
    Field { start: 164, width: 30, sort: Sort::Text, required: true },
    Field { start: 194, width: 60, sort: Sort::Text, required: false },
    Field { start: 254, width: 100, sort: Sort::Text, required: false },
    Field { start: 354, width: 378, sort: Sort::Blank, required: false },
    Field { start: 732, width: 10, sort: Sort::Number, required: true },
    Field { start: 742, width: 3, sort: Sort::Constant(b"3CX"), required: true },
    Field { start: 745, width: 6, sort: Sort::Worked(Working::RowNumber), required: true },
];

#[rattlefmt::skip]
static RECURRENCE_FIELDS: [Field; 23] = [
    Field { start: 1, width: 1, sort: Sort::Constant(b"A"), required: true },
    Field { start: 2, width: 2, sort: Sort::Code(&[1, 2, 3]), required: true },
    Field { start: 4, width: 1, sort: Sort::Code(&[1, 2, 3, 4]), required: true },
    Field { start: 5, width: 2, sort: Sort::Code(&[1, 2]), required: false },
    Field { start: 7, width: 14, sort: Sort::Number, required: false },
    Field { start: 21, width: 140, sort: Sort::Text, required: false },
    Field { start: 161, width: 35, sort: Sort::Text, required: false },
    Field { start: 196, width: 35, sort: Sort::Text, required: true },
    Field { start: 231, width: 35, sort: Sort::Text, required: false },
    Field { start: 266, width: 1, sort: Sort::Code(&[1, 2, 3, 4, 5]), required: true },
    Field { start: 267, width: 1, sort: Sort::Code(&[1, 2]), required: true },
    Field { start: 268, width: 8, sort: Sort::Date, required: true },
    Field { start: 276, width: 8, sort: Sort::Date, required: false },
    Field { start: 284, width: 1, sort: Sort::Code(&[1, 2]), required: true },
    Field { start: 285, width: 17, sort: Sort::Amount, required: false },
    Field { start: 302, width: 1, sort: Sort::Code(&[1, 2]), required: true },
    Field { start: 303, width: 17, sort: Sort::Amount, required: false },
    Field { start: 320, width: 1, sort: Sort::Code(&[1, 2]), required: true },
    Field { start: 321, width: 29, sort: Sort::Text, required: false },
    Field { start: 350, width: 77, sort: Sort::Text, required: false },
    Field { start: 427, width: 216, sort: Sort::Text, required: false },
    Field { start: 643, width: 102, sort: Sort::Blank, required: true },
    Field { start: 745, width: 6, sort: Sort::Worked(Working::RowNumber), required: true },
];

// Fields of a recurrence.
const OCCURRENCE: usize = 1;

const JOURNEY: usize = 2;

const TXID: usize = 6;

const TERM: usize = 10;

const FINAL_DATE: usize = 12;

const VALUE_TYPE: usize = 13;

const VALUE: usize = 14;

const MINIMUM_INDICATOR: usize = 15;

const MINIMUM: usize = 16;

const RECURRENCE_ID: usize = 18;

// Occurrences.
const CANCEL: u64 = 2;

const CHANGE: u64 = 3;

// The journey that begins with a first payment by QR code.
const FIRST_PAYMENT: u64 = 3;

// Terms.
const WITH_END: u64 = 1;

const WITHOUT_END: u64 = 2;

const FIXED_VALUE: u64 = 1;

const HAS_MINIMUM: u64 = 1;

#[rattlefmt::skip]
static RECURRENCE_CONDITIONS: [Condition; 7] = [
    Condition { premise: Premise::IfCode(OCCURRENCE, CANCEL), claim: Claim::IsFilled(RECURRENCE_ID) },
    Condition { premise: Premise::IfCode(OCCURRENCE, CHANGE), claim: Claim::IsFilled(RECURRENCE_ID) },
    Condition { premise: Premise::IfCode(JOURNEY, FIRST_PAYMENT), claim: Claim::IsFilled(TXID) },
    Condition { premise: Premise::IfCode(TERM, WITH_END), claim: Claim::IsFilled(FINAL_DATE) },
    Condition { premise: Premise::IfCode(TERM, WITHOUT_END), claim: Claim::NotFilled(FINAL_DATE) },
    Condition { premise: Premise::IfCode(VALUE_TYPE, FIXED_VALUE), claim: Claim::IsFilled(VALUE) },
    Condition { premise: Premise::IfCode(MINIMUM_INDICATOR, HAS_MINIMUM), claim: Claim::IsFilled(MINIMUM) },
];

#[rattlefmt::skip]
static TRAILER_FIELDS: [Field; 5] = [
    Field { start: 1, width: 1, sort: Sort::Constant(b"9"), required: true },
    Field { start: 2, width: 711, sort: Sort::Blank, required: false },
    Field { start: 713, width: 17, sort: Sort::Worked(Working::Total), required: true },
    Field { start: 730, width: 15, sort: Sort::Worked(Working::Count), required: true },
    Field { start: 745, width: 6, sort: Sort::Worked(Working::RowNumber), required: true },
];

impl Meant for RecurringCharges {
    ghost meaning = { layout_s };

    ghost GROUP_LIMIT = { 0 };

    ghost SUMMED = { None };

    ghost lawful = { Laws.lawful };

    ghost limited = { Laws.limited };

    ghost sums = { Laws.sums };

    const GROUP_LIMIT: usize = 0;

    const SUMMED: Option<Place> = None;
}

impl Book for RecurringCharges {
    fn kind_of(&self, mark: u8) -> Option<Kind> {
        match mark as char {
            '0' => Some(HEADER),
            'A' => Some(RECURRENCE),
            '9' => Some(TRAILER),
            _ => None,
        }
    }

    fn fields(&self, kind: Kind) -> &'static [Field] {
        match kind.mark as char {
            '0' => &HEADER_FIELDS,
            'A' => &RECURRENCE_FIELDS,
            '9' => &TRAILER_FIELDS,
            _ => &[],
        }
    }

    fn conditions(&self, kind: Kind) -> &'static [Condition] {
        match kind.mark as char {
            'A' => &RECURRENCE_CONDITIONS,
            _ => &[],
        }
    }

    fn may_follow(&self, kind: Kind, before: Kind) -> bool {
        match kind.mark as char {
            'A' | '9' => matches!(before.mark as char, '0' | 'A'),
            _ => false,
        }
    }

    fn header(&self) -> Kind {
        HEADER
    }

    fn trailer(&self) -> Kind {
        TRAILER
    }

    fn group(&self) -> Option<Group> {
        None
    }

    // Every row of the file.
    fn is_counted(&self, kind: Kind) -> bool {
        matches!(kind.mark as char, '0' | 'A' | '9')
    }
}
