// Each case of the tables, in a row whose other bytes must stay as they are.
use crate::cases::{READS, Read, Refused, WRITES, Write};
use fields::field::Field;
use numbers::cents::Cents;
use refusals::{FieldFault, Layer, Refusal};
use std::process::Abort;
use std::test::Fail;

const ROW: usize = 7;

const START: usize = 101;

const OTHER: u8 = b'#';

// The row that holds these bytes from the start on, and is otherwise untouched.
fn row_with(rt: &impl Abort, bytes: &[u8]) -> [u8; 750] {
    assert!(rt; bytes.len() <= 600);
    let mut row = [OTHER; 750];
    row[START - 1..START - 1 + bytes.len()].copy_from_slice(bytes);
    row
}

fn check_refused(
    rt: &impl Abort,
    answer: Result<(), FieldFault>,
    refused: Refused,
) -> Result<(), Fail> {
    let Err(fault) = answer else {
        return Err(Fail::new("not refused"));
    };
    let Refused(number, offset) = refused;
    assert!(rt; offset < 750);
    assert_eq!(rt;
        fault.refusal(),
        Refusal {
            number,
            layer: Layer::Field,
            first: ROW,
            second: START + offset,
        }
    );
    Ok(())
}

fn run_write(rt: &impl Abort, case: &Write) -> Result<(), Fail> {
    let Write(sort, required, width, content, gives) = *case;
    let field = Field {
        start: START,
        width,
        sort,
        required,
    };
    let mut row = [OTHER; 750];
    let answer = field.write(ROW, &mut row, content);
    match gives {
        Ok(bytes) => {
            assert!(rt; answer.is_ok());
            assert_eq!(rt; bytes.len(), width);
            assert!(rt; row == row_with(rt, bytes));
            Ok(())
        }
        Err(refused) => {
            assert!(rt; row == [OTHER; 750]);
            check_refused(rt, answer, refused)
        }
    }
}

fn run_read(rt: &impl Abort, case: &Read) -> Result<(), Fail> {
    let Read(sort, required, bytes, gives) = *case;
    let field = Field {
        start: START,
        width: bytes.len(),
        sort,
        required,
    };
    let row = row_with(rt, bytes);
    let answer = field.read(ROW, &row);
    match gives {
        Ok(held) => {
            assert!(rt; answer == Ok(held));
            Ok(())
        }
        Err(refused) => check_refused(rt, answer.map(|_| ()), refused),
    }
}

#[test]
fn fields_at_their_edges(rt: HostRuntime) -> Result<(), Fail> {
    for case in &WRITES {
        run_write(&rt, case)?;
    }
    for case in &READS {
        run_read(&rt, case)?;
    }
    Ok(())
}

#[test]
fn cents_at_their_edges(rt: HostRuntime) -> Result<(), Fail> {
    let Some(most) = Cents::new(99_999_999_999_999_999) else {
        return Err(Fail::new("17 nines are too large"));
    };
    let Some(one) = Cents::new(1) else {
        return Err(Fail::new("1 is too large"));
    };
    assert!(rt; Cents::new(100_000_000_000_000_000).is_none());
    assert!(rt; most.plus(one).is_none());
    assert_eq!(rt; one.value(), 1);
    assert!(rt; &most.digits() == b"99999999999999999");
    assert!(rt; &one.digits() == b"00000000000000001");
    Ok(())
}
