// The file that the receiver of money sends to the bank, to have QR codes made, deleted and changed.
ghost use Rattle.std.specs.Prelude.{◌≡◌, Some};
ghost use Rattle.outgoing_receipts.specs.BookP.{layout_p};
ghost use Rattle.outgoing_receipts.specs.Laws;
ghost use Rattle.layouts.specs.Meaning.{place_of};

use fields::field::{Field, Sort, Working};
use layouts::book::{Book, Meant};
use layouts::conditions::{Claim, Condition, Premise};
use layouts::kinds::{Group, Kind, Place};

// Book P.
#[derive(Clone, Copy, PartialEq, Eq, Debug)]
pub struct OutgoingReceipts;

pub const HEADER: Kind = Kind { mark: b'0' };

// One QR code to make, delete or change.
pub const CHARGE: Kind = Kind { mark: b'1' };

// Names and values shown to the payer of the charge before it.
pub const INFORMATION: Kind = Kind { mark: b'2' };

pub const TRAILER: Kind = Kind { mark: b'9' };

#[rattlefmt::skip]
static HEADER_FIELDS: [Field; 18] = [
    Field { start: 1, width: 1, sort: Sort::Constant(b"0"), required: true },
    Field { start: 2, width: 1, sort: Sort::Constant(b"1"), required: true },
    Field { start: 3, width: 7, sort: Sort::Constant(b"REMESSA"), required: true },
    Field { start: 10, width: 2, sort: Sort::Constant(b"02"), required: true },
    Field { start: 12, width: 15, sort: Sort::Constant(b"PIX"), required: true },
    Field { start: 27, width: 8, sort: Sort::Text, required: true },
    Field { start: 35, width: 2, sort: Sort::Code(&[1, 2]), required: true },
    Field { start: 37, width: 14, sort: Sort::Number, required: true },
    Field { start: 51, width: 4, sort: Sort::Text, required: false },
    Field { start: 55, width: 20, sort: Sort::Text, required: false },
    Field { start: 75, width: 4, sort: Sort::Word(&[b"CACC", b"SVGS"]), required: false },
    Field { start: 79, width: 77, sort: Sort::Text, required: false },
    Field { start: 156, width: 8, sort: Sort::Date, required: true },
    Field { start: 164, width: 30, sort: Sort::Text, required: false },
    Field { start: 194, width: 60, sort: Sort::Text, required: false },
    Field { start: 254, width: 488, sort: Sort::Blank, required: false },
    Field { start: 742, width: 3, sort: Sort::Constant(b"001"), required: true },
    Field { start: 745, width: 6, sort: Sort::Worked(Working::RowNumber), required: true },
];

#[rattlefmt::skip]
static CHARGE_FIELDS: [Field; 26] = [
    Field { start: 1, width: 1, sort: Sort::Constant(b"1"), required: true },
    Field { start: 2, width: 2, sort: Sort::Code(&[1, 2]), required: true },
    Field { start: 4, width: 14, sort: Sort::Number, required: true },
    Field { start: 18, width: 4, sort: Sort::Number, required: false },
    Field { start: 22, width: 20, sort: Sort::LongDigits, required: false },
    Field { start: 42, width: 4, sort: Sort::Word(&[b"CACC", b"SVGS"]), required: false },
    Field { start: 46, width: 77, sort: Sort::Text, required: true },
    Field { start: 123, width: 1, sort: Sort::Code(&[1, 2]), required: true },
    Field { start: 124, width: 2, sort: Sort::Code(&[1, 2, 4]), required: true },
    Field { start: 126, width: 35, sort: Sort::Text, required: false },
    Field { start: 161, width: 15, sort: Sort::Number, required: false },
    Field { start: 176, width: 8, sort: Sort::Date, required: false },
    Field { start: 184, width: 1, sort: Sort::Word(&[b"S", b"N"]), required: false },
    Field { start: 185, width: 17, sort: Sort::Amount, required: false },
    Field { start: 202, width: 17, sort: Sort::Amount, required: false },
    Field { start: 219, width: 17, sort: Sort::Amount, required: false },
    Field { start: 236, width: 17, sort: Sort::Amount, required: false },
    Field { start: 253, width: 1, sort: Sort::Word(&[b"S", b"N"]), required: false },
    Field { start: 254, width: 2, sort: Sort::Code(&[1, 2]), required: false },
    Field { start: 256, width: 14, sort: Sort::Number, required: false },
    Field { start: 270, width: 140, sort: Sort::Text, required: false },
    Field { start: 410, width: 140, sort: Sort::Text, required: false },
    Field { start: 550, width: 1, sort: Sort::Word(&[b"S", b"N"]), required: false },
    Field { start: 551, width: 60, sort: Sort::Text, required: false },
    Field { start: 611, width: 134, sort: Sort::Blank, required: false },
    Field { start: 745, width: 6, sort: Sort::Worked(Working::RowNumber), required: true },
];

// Fields of a charge.
const KEY: usize = 6;

const CHARGE_TYPE: usize = 7;

const OCCURRENCE: usize = 8;

const IDENTIFIER: usize = 9;

const ORIGINAL_VALUE: usize = 13;

const INTEREST: usize = 14;

const FINE: usize = 15;

const DISCOUNT: usize = 16;

const DEBTOR_NUMBER: usize = 19;

const DEBTOR_NAME: usize = 20;

const FREE_TEXT: usize = 21;

// Charge types.
const STATIC: u64 = 1;

const DYNAMIC: u64 = 2;

// Occurrences.
const DELETE: u64 = 2;

const CHANGE: u64 = 4;

// A QR code has 99 bytes for key and free text, 22 of them taken.
const KEY_AND_TEXT: usize = 77;

#[rattlefmt::skip]
static CHARGE_CONDITIONS: [Condition; 10] = [
    Condition { premise: Premise::IfCode(CHARGE_TYPE, DYNAMIC), claim: Claim::IsFilled(IDENTIFIER) },
    Condition { premise: Premise::IfCode(CHARGE_TYPE, DYNAMIC), claim: Claim::IsFilled(ORIGINAL_VALUE) },
    Condition { premise: Premise::IfCode(OCCURRENCE, DELETE), claim: Claim::IsCode(CHARGE_TYPE, DYNAMIC) },
    Condition { premise: Premise::IfCode(OCCURRENCE, CHANGE), claim: Claim::IsCode(CHARGE_TYPE, DYNAMIC) },
    Condition { premise: Premise::Always, claim: Claim::AtMost(INTEREST, ORIGINAL_VALUE) },
    Condition { premise: Premise::Always, claim: Claim::AtMost(FINE, ORIGINAL_VALUE) },
    Condition { premise: Premise::Always, claim: Claim::AtMost(DISCOUNT, ORIGINAL_VALUE) },
    Condition { premise: Premise::IfFilled(DEBTOR_NUMBER), claim: Claim::IsFilled(DEBTOR_NAME) },
    Condition { premise: Premise::IfCode(CHARGE_TYPE, STATIC), claim: Claim::Short(IDENTIFIER, 25) },
    Condition { premise: Premise::IfCode(CHARGE_TYPE, STATIC), claim: Claim::ShortBoth(KEY, FREE_TEXT, KEY_AND_TEXT) },
];

#[rattlefmt::skip]
static INFORMATION_FIELDS: [Field; 10] = [
    Field { start: 1, width: 1, sort: Sort::Constant(b"2"), required: true },
    Field { start: 2, width: 35, sort: Sort::Text, required: false },
    Field { start: 37, width: 50, sort: Sort::Text, required: true },
    Field { start: 87, width: 200, sort: Sort::Text, required: true },
    Field { start: 287, width: 50, sort: Sort::Text, required: false },
    Field { start: 337, width: 200, sort: Sort::Text, required: false },
    Field { start: 537, width: 30, sort: Sort::Text, required: false },
    Field { start: 567, width: 172, sort: Sort::Blank, required: false },
    Field { start: 739, width: 6, sort: Sort::Worked(Working::OwnerNumber), required: true },
    Field { start: 745, width: 6, sort: Sort::Worked(Working::RowNumber), required: true },
];

// The identifier among the fields of an information row.
const OWNER_IDENTIFIER: usize = 1;

#[rattlefmt::skip]
static TRAILER_FIELDS: [Field; 5] = [
    Field { start: 1, width: 1, sort: Sort::Constant(b"9"), required: true },
    Field { start: 2, width: 711, sort: Sort::Blank, required: false },
    Field { start: 713, width: 17, sort: Sort::Worked(Working::Total), required: true },
    Field { start: 730, width: 15, sort: Sort::Worked(Working::Count), required: true },
    Field { start: 745, width: 6, sort: Sort::Worked(Working::RowNumber), required: true },
];

impl Meant for OutgoingReceipts {
    ghost meaning = { layout_p };

    ghost GROUP_LIMIT = { 50 };

    ghost SUMMED = { Some (place_of 49 13) };

    ghost lawful = { Laws.lawful };

    ghost limited = { Laws.limited };

    ghost sums = { Laws.sums };

    const GROUP_LIMIT: usize = 50;

    const SUMMED: Option<Place> = Some(Place {
        kind: CHARGE,
        field: ORIGINAL_VALUE,
    });
}

impl Book for OutgoingReceipts {
    fn kind_of(&self, mark: u8) -> Option<Kind> {
        match mark as char {
            '0' => Some(HEADER),
            '1' => Some(CHARGE),
            '2' => Some(INFORMATION),
            '9' => Some(TRAILER),
            _ => None,
        }
    }

    fn fields(&self, kind: Kind) -> &'static [Field] {
        match kind.mark as char {
            '0' => &HEADER_FIELDS,
            '1' => &CHARGE_FIELDS,
            '2' => &INFORMATION_FIELDS,
            '9' => &TRAILER_FIELDS,
            _ => &[],
        }
    }

    fn conditions(&self, kind: Kind) -> &'static [Condition] {
        match kind.mark as char {
            '1' => &CHARGE_CONDITIONS,
            _ => &[],
        }
    }

    fn may_follow(&self, kind: Kind, before: Kind) -> bool {
        match kind.mark as char {
            '1' | '9' => matches!(before.mark as char, '0' | '1' | '2'),
            '2' => matches!(before.mark as char, '1' | '2'),
            _ => false,
        }
    }

    fn header(&self) -> Kind {
        HEADER
    }

    fn trailer(&self) -> Kind {
        TRAILER
    }

    fn group(&self) -> Option<Group> {
        Some(Group {
            owner: CHARGE,
            follower: INFORMATION,
            owner_type: CHARGE_TYPE,
            owner_identifier: IDENTIFIER,
            follower_identifier: OWNER_IDENTIFIER,
        })
    }

    // Every row of the file.
    fn is_counted(&self, kind: Kind) -> bool {
        matches!(kind.mark as char, '0' | '1' | '2' | '9')
    }
}
