// Drafts the largest file of outgoing receipts and one row more, and checks both; the time of the check is told on standard error.
#![tactic(auto)]

use drafts::drafts::Draft;
use example_entries::{charge, header, trailer};
use files::checking::Accepted;
use files::reading::check_in;
use forms::Flat;
use outgoing_receipts::OutgoingReceipts;
use refusals::{DraftFault, InputFault, Refusal};
use rows::Written;
use std::time::Instant;

// 65,536 rows of 750 bytes: one row more than a file may have.
const ROOM: usize = 49_152_000;

const LARGEST: usize = 49_151_250;

// A header, as many charges, and a trailer.
fn draft_file(charges: u32, memory: &mut [u8]) -> Result<(), DraftFault> {
    let carrier: Written<Flat> = Written::over(memory);
    let mut draft = Draft::new(OutgoingReceipts, carrier);
    draft.start(header())?;
    for _ in 0..charges {
        draft.add(charge())?;
    }
    draft.close(trailer())
}

fn tell_refusal(rt: &HostRuntime, what: &str, refusal: Refusal) -> anyhow::Result<()> {
    println!(rt; "{what}: {refusal}")?;
    Ok(())
}

fn tell_draft(rt: &HostRuntime, what: &str, answer: Result<(), DraftFault>) -> anyhow::Result<()> {
    match answer {
        Ok(()) => {
            println!(rt; "{what}: closed")?;
            Ok(())
        }
        Err(fault) => tell_refusal(rt, what, fault.refusal()),
    }
}

fn tell_check(
    rt: &HostRuntime,
    what: &str,
    answer: Result<Accepted, InputFault>,
) -> anyhow::Result<()> {
    match answer {
        Ok(Accepted { rows, sum }) => {
            let cents = sum.value();
            println!(rt; "{what}: {rows} rows, {cents} cents")?;
            Ok(())
        }
        Err(fault) => tell_refusal(rt, what, fault.refusal()),
    }
}

fn run(rt: &HostRuntime) -> anyhow::Result<()> {
    let mut memory = vec![in rt.alloc(); 0u8; ROOM]?;
    tell_draft(
        rt,
        "draft of 65535 rows",
        draft_file(65_533, memory.as_mut_slice()),
    )?;
    let start = Instant::now(rt)?;
    let answer = check_in::<Flat, _>(&OutgoingReceipts, &memory.as_slice()[0..LARGEST]);
    let time = start.elapsed(rt)?.as_nanos();
    eprintln!(rt; "check of 65535 rows: {time} ns")?;
    tell_check(rt, "check of 65535 rows", answer)?;
    tell_check(
        rt,
        "check of 65536 rows",
        check_in::<Flat, _>(&OutgoingReceipts, memory.as_slice()),
    )?;
    tell_draft(
        rt,
        "draft of 65536 rows",
        draft_file(65_534, memory.as_mut_slice()),
    )
}

fn main(rt: HostRuntime) -> anyhow::Result<()> {
    run(&rt)
}
