// Each case of the tables.
use crate::cases::{
    Change, JUDGED_OUTGOING, JUDGED_RECURRING, JUDGED_RETURNED, Judged, PRINTED_OUTGOING,
    PRINTED_RECURRING, PRINTED_RETURNED, Printed, REFUSED, Refused, Told,
};
use entries::print;
use layouts::book::Book;
use outgoing_receipts::OutgoingReceipts;
use records::{Entry, Worked, judge};
use recurring_charges::RecurringCharges;
use refusals::{Layer, Refusal};
use returned_receipts::ReturnedReceipts;
use std::process::Abort;
use std::test::Fail;

const ROW: usize = 4;

const WORKED: Worked = Worked {
    row_number: 4,
    owner_number: 3,
    total: 99_999_999_999_999_999,
    count: 123_456,
};

fn check_refusal(rt: &impl Abort, refusal: Refusal, told: Told) -> Result<(), Fail> {
    let Told {
        number,
        first,
        second,
    } = told;
    assert_eq!(rt; refusal.number, number);
    assert_eq!(rt; refusal.first, first);
    assert_eq!(rt; refusal.second, second);
    assert!(rt;
        match refusal.layer {
            Layer::Row => matches!(number, 10 | 15),
            Layer::Field => matches!(number, 11..=14),
            Layer::Draft => number == 31,
            _ => false,
        }
    );
    Ok(())
}

fn run_printed<B: Book>(rt: &impl Abort, book: &B, case: &Printed) -> Result<(), Fail> {
    let mut row = [b'#'; 750];
    let entry = Entry {
        mark: case.mark,
        values: case.values,
        pool: case.pool,
    };
    assert!(rt; print(book, entry, WORKED, ROW, &mut row).is_ok());
    assert!(rt; &row == case.row);
    let Ok(kind) = judge(book, ROW, &row) else {
        return Err(Fail::new("a printed row is refused"));
    };
    assert_eq!(rt; kind.mark, case.mark);
    Ok(())
}

fn change(rt: &impl Abort, row: &mut [u8; 750], change: &Change) {
    let Change(position, bytes) = *change;
    assert!(rt; 1 <= position && position <= 750 && bytes.len() <= 751 - position);
    let from = position - 1;
    row[from..from + bytes.len()].copy_from_slice(bytes);
}

fn run_judged<B: Book>(
    rt: &impl Abort,
    book: &B,
    printed: &[Printed],
    case: &Judged,
) -> Result<(), Fail> {
    let base = printed.get(case.base).expect(rt, "no such printed row");
    let mut row = *base.row;
    for each in case.changes {
        change(rt, &mut row, each);
    }
    match (judge(book, ROW, &row), case.told) {
        (Ok(kind), None) => {
            assert_eq!(rt; kind.mark, row[0]);
            Ok(())
        }
        (Err(fault), Some(told)) => check_refusal(rt, fault.refusal(), told),
        (Ok(_), Some(_)) => Err(Fail::new("a bad row is good")),
        (Err(_), None) => Err(Fail::new("a good row is refused")),
    }
}

fn run_book<B: Book>(
    rt: &impl Abort,
    book: &B,
    printed: &[Printed],
    judged: &[Judged],
) -> Result<(), Fail> {
    for case in printed {
        run_printed(rt, book, case)?;
    }
    for case in judged {
        run_judged(rt, book, printed, case)?;
    }
    Ok(())
}

fn run_refused(rt: &impl Abort, case: &Refused) -> Result<(), Fail> {
    let mut row = [b'#'; 750];
    let entry = Entry {
        mark: case.mark,
        values: case.values,
        pool: case.pool,
    };
    let worked = Worked {
        row_number: case.row_number,
        ..WORKED
    };
    let Err(fault) = print(&OutgoingReceipts, entry, worked, ROW, &mut row) else {
        return Err(Fail::new("printed"));
    };
    assert!(rt; row == [b'#'; 750]);
    check_refusal(rt, fault.refusal(), case.told)
}

#[test]
fn outgoing_rows(rt: HostRuntime) -> Result<(), Fail> {
    run_book(&rt, &OutgoingReceipts, &PRINTED_OUTGOING, &JUDGED_OUTGOING)
}

#[test]
fn returned_rows(rt: HostRuntime) -> Result<(), Fail> {
    run_book(&rt, &ReturnedReceipts, &PRINTED_RETURNED, &JUDGED_RETURNED)
}

#[test]
fn recurring_rows(rt: HostRuntime) -> Result<(), Fail> {
    run_book(
        &rt,
        &RecurringCharges,
        &PRINTED_RECURRING,
        &JUDGED_RECURRING,
    )
}

#[test]
fn entries_are_refused(rt: HostRuntime) -> Result<(), Fail> {
    for case in &REFUSED {
        run_refused(&rt, case)?;
    }
    Ok(())
}
