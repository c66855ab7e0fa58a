// transcribe FROM TO: reads rows on standard input in one form and writes them on standard output in another.
#![tactic(auto)]

mod faults;
mod names;
mod transcription;

use anyhow::{Context, anyhow, ensure};
use faults::TranscribeFault;
use names::FormName;
use std::env;
use std::io::{Read, Write};
use std::process::ExitCode;
use transcription::transcribe;

const USAGE: &str = "usage: transcribe FROM TO, each one of flat, lined, hexadecimal";

fn form_argument(word: Option<String>) -> anyhow::Result<FormName> {
    let word = word.context(USAGE)?;
    word.as_str().parse().ok().context(USAGE)
}

// The text names the form that the input should have, which the fault does not know.
fn explain(from: FormName, fault: TranscribeFault) -> anyhow::Error {
    match fault {
        TranscribeFault::Form(broken) => {
            let refusal = broken.refusal();
            let number = refusal.number;
            let at = refusal.first;
            anyhow!("refusal {number} at byte {at}: the input breaks the {from} form there")
        }
        TranscribeFault::Memory => anyhow!("not enough memory for the output"),
    }
}

fn run(rt: &HostRuntime) -> anyhow::Result<()> {
    let mut words = env::args(rt)?.skip(1);
    let from = form_argument(words.next())?;
    let to = form_argument(words.next())?;
    ensure!(words.next().is_none(), USAGE);
    let mut input = Vec::new(rt.alloc());
    rt.stdin().read_to_end(&mut input)?;
    let answer = transcribe(rt.alloc(), from, to, input.as_slice());
    let transcript = answer.map_err(|fault| explain(from, fault))?;
    rt.stdout().write_all(transcript.bytes.as_slice())?;
    let rows = transcript.rows;
    eprintln!(rt; "{rows} rows, {from} to {to}")?;
    Ok(())
}

// A main that hands its error on would print it in another form, and one function for the four programs that end so would need a crate of its own.
fn main(rt: HostRuntime) -> ExitCode {
    match run(&rt) {
        Ok(()) => ExitCode::SUCCESS,
        Err(fault) => {
            let _ = eprintln!(rt; "transcribe: {fault}");
            ExitCode::FAILURE
        }
    }
}
