// The file that the bank sends back: what was confirmed or rejected, paid or cancelled, and the QR codes made.
ghost use Rattle.std.specs.Prelude.{◌≡◌, Some};
ghost use Rattle.returned_receipts.specs.BookQ.{layout_q};
ghost use Rattle.returned_receipts.specs.Laws;
ghost use Rattle.layouts.specs.Meaning.{place_of};

use fields::field::{Field, Sort, Working};
use layouts::book::{Book, Meant};
use layouts::conditions::Condition;
use layouts::kinds::{Group, Kind, Place};

// Book Q.
#[derive(Clone, Copy, PartialEq, Eq, Debug)]
pub struct ReturnedReceipts;

pub const HEADER: Kind = Kind { mark: b'0' };

// What happened to one charge or transfer.
pub const TRANSACTION: Kind = Kind { mark: b'1' };

// Names and values of the transaction before it.
pub const INFORMATION: Kind = Kind { mark: b'2' };

// The link made for a QR code.
pub const PIX_LINK: Kind = Kind { mark: b'3' };

// The content from which a QR code is drawn.
pub const QR_CODE: Kind = Kind { mark: b'4' };

pub const TRAILER: Kind = Kind { mark: b'9' };

#[rattlefmt::skip]
static HEADER_FIELDS: [Field; 19] = [
    Field { start: 1, width: 1, sort: Sort::Constant(b"0"), required: true },
    Field { start: 2, width: 1, sort: Sort::Constant(b"2"), required: true },
    Field { start: 3, width: 7, sort: Sort::Constant(b"RETORNO"), required: true },
    Field { start: 10, width: 2, sort: Sort::Constant(b"02"), required: true },
    Field { start: 12, width: 15, sort: Sort::Constant(b"PIX"), required: true },
    Field { start: 27, width: 8, sort: Sort::Text, required: true },
    Field { start: 35, width: 2, sort: Sort::Code(&[1, 2]), required: true },
    Field { start: 37, width: 14, sort: Sort::Number, required: true },
    Field { start: 51, width: 4, sort: Sort::Number, required: false },
    Field { start: 55, width: 20, sort: Sort::LongDigits, required: false },
    Field { start: 75, width: 4, sort: Sort::Word(&[b"CACC", b"SVGS"]), required: false },
    Field { start: 79, width: 77, sort: Sort::Text, required: false },
    Field { start: 156, width: 8, sort: Sort::Date, required: true },
    Field { start: 164, width: 30, sort: Sort::Text, required: false },
    Field { start: 194, width: 60, sort: Sort::Text, required: false },
    Field { start: 254, width: 30, sort: Sort::Text, required: false },
    Field { start: 284, width: 458, sort: Sort::Blank, required: false },
    Field { start: 742, width: 3, sort: Sort::Constant(b"001"), required: true },
    Field { start: 745, width: 6, sort: Sort::Worked(Working::RowNumber), required: true },
];

#[rattlefmt::skip]
static TRANSACTION_FIELDS: [Field; 32] = [
    Field { start: 1, width: 1, sort: Sort::Constant(b"1"), required: true },
    Field { start: 2, width: 8, sort: Sort::Text, required: true },
    Field { start: 10, width: 2, sort: Sort::Code(&[1, 2]), required: true },
    Field { start: 12, width: 14, sort: Sort::Number, required: true },
    Field { start: 26, width: 4, sort: Sort::Text, required: true },
    Field { start: 30, width: 20, sort: Sort::Text, required: true },
    Field { start: 50, width: 4, sort: Sort::Word(&[b"CACC", b"SVGS"]), required: true },
    Field { start: 54, width: 77, sort: Sort::Text, required: true },
    Field { start: 131, width: 1, sort: Sort::Code(&[1, 2, 3]), required: true },
    Field { start: 132, width: 2, sort: Sort::Code(&[2, 3, 4, 5, 6, 7, 8, 9]), required: true },
    Field { start: 134, width: 8, sort: Sort::Date, required: true },
    Field { start: 142, width: 35, sort: Sort::Text, required: true },
    Field { start: 177, width: 15, sort: Sort::Number, required: false },
    Field { start: 192, width: 8, sort: Sort::Date, required: false },
    Field { start: 200, width: 17, sort: Sort::Amount, required: false },
    Field { start: 217, width: 17, sort: Sort::Amount, required: false },
    Field { start: 234, width: 17, sort: Sort::Amount, required: false },
    Field { start: 251, width: 17, sort: Sort::Amount, required: false },
    Field { start: 268, width: 17, sort: Sort::Amount, required: false },
    Field { start: 285, width: 17, sort: Sort::Amount, required: false },
    Field { start: 302, width: 17, sort: Sort::Amount, required: false },
    Field { start: 319, width: 2, sort: Sort::Code(&[1, 2]), required: false },
    Field { start: 321, width: 14, sort: Sort::Number, required: false },
    Field { start: 335, width: 140, sort: Sort::Text, required: false },
    Field { start: 475, width: 2, sort: Sort::Code(&[1, 2]), required: false },
    Field { start: 477, width: 14, sort: Sort::Number, required: false },
    Field { start: 491, width: 140, sort: Sort::Text, required: false },
    Field { start: 631, width: 2, sort: Sort::Word(&[b"01", b"02", b"03", b"04", b"05"]), required: false },
    Field { start: 633, width: 35, sort: Sort::Text, required: false },
    Field { start: 668, width: 30, sort: Sort::Text, required: false },
    Field { start: 698, width: 47, sort: Sort::Blank, required: false },
    Field { start: 745, width: 6, sort: Sort::Worked(Working::RowNumber), required: true },
];

// Fields of a transaction.
const CHARGE_TYPE: usize = 8;

const IDENTIFIER: usize = 11;

const AMOUNT_PAID: usize = 19;

#[rattlefmt::skip]
static INFORMATION_FIELDS: [Field; 9] = [
    Field { start: 1, width: 1, sort: Sort::Constant(b"2"), required: true },
    Field { start: 2, width: 35, sort: Sort::Text, required: true },
    Field { start: 37, width: 50, sort: Sort::Text, required: true },
    Field { start: 87, width: 200, sort: Sort::Text, required: true },
    Field { start: 287, width: 50, sort: Sort::Text, required: false },
    Field { start: 337, width: 200, sort: Sort::Text, required: false },
    Field { start: 537, width: 202, sort: Sort::Blank, required: false },
    Field { start: 739, width: 6, sort: Sort::Worked(Working::OwnerNumber), required: true },
    Field { start: 745, width: 6, sort: Sort::Worked(Working::RowNumber), required: true },
];

// The identifier among the fields of an information row.
const OWNER_IDENTIFIER: usize = 1;

#[rattlefmt::skip]
static PIX_LINK_FIELDS: [Field; 9] = [
    Field { start: 1, width: 1, sort: Sort::Constant(b"3"), required: true },
    Field { start: 2, width: 77, sort: Sort::Text, required: true },
    Field { start: 79, width: 2, sort: Sort::Code(&[2, 3, 4, 5, 6, 7, 8, 9]), required: true },
    Field { start: 81, width: 8, sort: Sort::Date, required: true },
    Field { start: 89, width: 35, sort: Sort::Text, required: true },
    Field { start: 124, width: 500, sort: Sort::Text, required: true },
    Field { start: 624, width: 77, sort: Sort::Text, required: false },
    Field { start: 701, width: 44, sort: Sort::Blank, required: false },
    Field { start: 745, width: 6, sort: Sort::Worked(Working::RowNumber), required: true },
];

#[rattlefmt::skip]
static QR_CODE_FIELDS: [Field; 9] = [
    Field { start: 1, width: 1, sort: Sort::Constant(b"4"), required: true },
    Field { start: 2, width: 77, sort: Sort::Text, required: true },
    Field { start: 79, width: 2, sort: Sort::Code(&[2, 3, 4, 5, 6, 7, 8, 9]), required: true },
    Field { start: 81, width: 8, sort: Sort::Date, required: true },
    Field { start: 89, width: 35, sort: Sort::Text, required: true },
    Field { start: 124, width: 500, sort: Sort::Text, required: true },
    Field { start: 624, width: 77, sort: Sort::Text, required: false },
    Field { start: 701, width: 44, sort: Sort::Blank, required: false },
    Field { start: 745, width: 6, sort: Sort::Worked(Working::RowNumber), required: true },
];

#[rattlefmt::skip]
static TRAILER_FIELDS: [Field; 8] = [
    Field { start: 1, width: 1, sort: Sort::Constant(b"9"), required: true },
    Field { start: 2, width: 1, sort: Sort::Constant(b"2"), required: true },
    Field { start: 3, width: 2, sort: Sort::Constant(b"02"), required: true },
    Field { start: 5, width: 8, sort: Sort::Text, required: true },
    Field { start: 13, width: 30, sort: Sort::Text, required: false },
    Field { start: 43, width: 687, sort: Sort::Blank, required: false },
    Field { start: 730, width: 15, sort: Sort::Worked(Working::Count), required: true },
    Field { start: 745, width: 6, sort: Sort::Worked(Working::RowNumber), required: true },
];

impl Meant for ReturnedReceipts {
    ghost meaning = { layout_q };

    ghost GROUP_LIMIT = { 50 };

    ghost SUMMED = { Some (place_of 49 19) };

    ghost lawful = { Laws.lawful };

    ghost limited = { Laws.limited };

    ghost sums = { Laws.sums };

    const GROUP_LIMIT: usize = 50;

    const SUMMED: Option<Place> = Some(Place {
        kind: TRANSACTION,
        field: AMOUNT_PAID,
    });
}

impl Book for ReturnedReceipts {
    fn kind_of(&self, mark: u8) -> Option<Kind> {
        match mark as char {
            '0' => Some(HEADER),
            '1' => Some(TRANSACTION),
            '2' => Some(INFORMATION),
            '3' => Some(PIX_LINK),
            '4' => Some(QR_CODE),
            '9' => Some(TRAILER),
            _ => None,
        }
    }

    fn fields(&self, kind: Kind) -> &'static [Field] {
        match kind.mark as char {
            '0' => &HEADER_FIELDS,
            '1' => &TRANSACTION_FIELDS,
            '2' => &INFORMATION_FIELDS,
            '3' => &PIX_LINK_FIELDS,
            '4' => &QR_CODE_FIELDS,
            '9' => &TRAILER_FIELDS,
            _ => &[],
        }
    }

    fn conditions(&self, _kind: Kind) -> &'static [Condition] {
        &[]
    }

    fn may_follow(&self, kind: Kind, before: Kind) -> bool {
        match kind.mark as char {
            '1' | '3' | '4' | '9' => matches!(before.mark as char, '0' | '1' | '2' | '3' | '4'),
            '2' => matches!(before.mark as char, '1' | '2'),
            _ => false,
        }
    }

    fn header(&self) -> Kind {
        HEADER
    }

    fn trailer(&self) -> Kind {
        TRAILER
    }

    fn group(&self) -> Option<Group> {
        Some(Group {
            owner: TRANSACTION,
            follower: INFORMATION,
            owner_type: CHARGE_TYPE,
            owner_identifier: IDENTIFIER,
            follower_identifier: OWNER_IDENTIFIER,
        })
    }

    // The rows between header and trailer.
    fn is_counted(&self, kind: Kind) -> bool {
        matches!(kind.mark as char, '1' | '2' | '3' | '4')
    }
}
