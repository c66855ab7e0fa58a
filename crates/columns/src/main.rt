// Prints the tables of books, one line a field, so that a person can count columns against the bank's manual.
#![tactic(auto)]

mod lines;
mod tables;

use crate::tables::put_table;
use anyhow::anyhow;
use books::letters::Letter;
use std::env;
use std::io::Write;
use std::process::ExitCode;

const USAGE: &str = "usage: columns LETTER.. (P, Q or S)";

// All letters are read before anything is printed.
fn letters(rt: &HostRuntime) -> anyhow::Result<Vec<Letter>> {
    let mut letters = Vec::new(rt.alloc());
    for word in env::args(rt)?.skip(1) {
        let letter = word.parse().map_err(|_| anyhow!(USAGE))?;
        letters.push(letter)?;
    }
    if letters.is_empty() {
        return Err(anyhow!(USAGE));
    }
    Ok(letters)
}

fn run(rt: &HostRuntime) -> anyhow::Result<()> {
    let mut out = Vec::new(rt.alloc());
    for letter in &letters(rt)? {
        put_table(&mut out, *letter)?;
    }
    rt.stdout().write_all(&out)?;
    Ok(())
}

// A main that hands its error on would print it in another form, and one function for the four programs that end so would need a crate of its own.
fn main(rt: HostRuntime) -> ExitCode {
    match run(&rt) {
        Ok(()) => ExitCode::SUCCESS,
        Err(fault) => {
            let _ = eprintln!(rt; "{fault}");
            ExitCode::FAILURE
        }
    }
}
