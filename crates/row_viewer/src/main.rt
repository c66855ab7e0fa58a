// row_viewer LETTER: shows one row of a book, given on standard input in the hexadecimal form.
// row_viewer LETTER FILE ..: shows the row of each file, each by the book before it.
#![tactic(auto)]

mod input;
mod lines;
mod meanings;
mod view;

use anyhow::anyhow;
use books::letters::Letter;
use input::row_in;
use outgoing_receipts::OutgoingReceipts;
use recurring_charges::RecurringCharges;
use returned_receipts::ReturnedReceipts;
use std::io::{Read, Write};
use std::process::ExitCode;
use std::{env, fs};
use view::put_row;

const USAGE: &str = "usage: row_viewer LETTER [FILE LETTER FILE ..] (P, Q or S)";

// A trait with one generic method would say the book of a letter once for all programs, and be longer than these arms.
fn show(rt: &HostRuntime, letter: Letter, bytes: &[u8]) -> anyhow::Result<()> {
    let row = row_in(bytes)?;
    let mut out = format!(in rt.alloc(); "{letter} ")?;
    match letter {
        Letter::P => put_row(&mut out, &OutgoingReceipts, &row)?,
        Letter::Q => put_row(&mut out, &ReturnedReceipts, &row)?,
        Letter::S => put_row(&mut out, &RecurringCharges, &row)?,
    }
    rt.stdout().write_all(out.as_bytes())?;
    Ok(())
}

fn read_input(rt: &HostRuntime) -> anyhow::Result<Vec<u8>> {
    let mut bytes = Vec::new(rt.alloc());
    rt.stdin().read_to_end(&mut bytes)?;
    Ok(bytes)
}

// Letters and files take turns, and standard input stands for the last file where it is left out.
fn run(rt: &HostRuntime) -> anyhow::Result<()> {
    let mut words = env::args(rt)?.skip(1).peekable();
    if words.peek().is_none() {
        return Err(anyhow!(USAGE));
    }
    while let Some(word) = words.next() {
        let letter = word.parse().map_err(|_| anyhow!(USAGE))?;
        let bytes = match words.next() {
            Some(file) => fs::read(rt, file.as_str())?,
            None => read_input(rt)?,
        };
        show(rt, letter, bytes.as_slice())?;
    }
    Ok(())
}

// A main that hands its error on would print it in another form, and one function for the four programs that end so would need a crate of its own.
fn main(rt: HostRuntime) -> ExitCode {
    match run(&rt) {
        Ok(()) => ExitCode::SUCCESS,
        Err(fault) => {
            let _ = eprintln!(rt; "row_viewer: {fault}");
            ExitCode::FAILURE
        }
    }
}
