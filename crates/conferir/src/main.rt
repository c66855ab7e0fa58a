// conferir: reads the letter of a book, LF and a file of that book in the hexadecimal form, and prints one line:
// the file is in order, with its rows and its total, or the number, the row and the position of its first fault.
#![tactic(auto)]

mod faults;

use faults::ConferirFault;
use std::io::{Read, Write};
use std::process::ExitCode;
use verdicts::lines::confer;
use verdicts::verdicts::LARGEST_INPUT;

// At most one byte more than an input may have: a longer one is then seen to be too long, whatever follows.
fn read_input(rt: &HostRuntime) -> Result<Vec<u8>, ConferirFault> {
    let mut input = Vec::with_capacity(rt.alloc(), LARGEST_INPUT + 1)?;
    rt.stdin()
        .take(LARGEST_INPUT as u64 + 1)
        .read_to_end(&mut input)?;
    Ok(input)
}

fn run(rt: &HostRuntime) -> Result<(), ConferirFault> {
    let input = read_input(rt)?;
    let line = confer(input.as_slice());
    rt.stdout().write_all(line.bytes())?;
    Ok(())
}

// A main that hands its error on would print it in another form, and one function for the four programs that end so would need a crate of its own.
fn main(rt: HostRuntime) -> ExitCode {
    match run(&rt) {
        Ok(()) => ExitCode::SUCCESS,
        Err(fault) => {
            let _ = eprintln!(rt; "conferir: {fault}");
            ExitCode::FAILURE
        }
    }
}
