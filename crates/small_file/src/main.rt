// Drafts a small file of outgoing receipts, closes it, checks it from another form of memory, and says what was done.
#![tactic(auto)]

use drafts::drafts::Draft;
use example_entries::{charge, follower, header, trailer};
use files::checking::Accepted;
use files::reading::check_in;
use forms::{Hexadecimal, Lined};
use outgoing_receipts::OutgoingReceipts;
use refusals::{CarrierFault, DraftFault, InputFault};
use rows::{Opened, Written, write_all};

// A header, a charge with one follower, and a trailer.
fn draft_file(memory: &mut [u8]) -> Result<(), DraftFault> {
    let carrier: Written<Lined> = Written::over(memory);
    let mut draft = Draft::new(OutgoingReceipts, carrier);
    draft.start(header())?;
    draft.add(charge())?;
    draft.add(follower())?;
    draft.close(trailer())
}

// The same rows in the hexadecimal form.
fn to_hexadecimal(lined: &[u8], memory: &mut [u8]) -> Result<usize, CarrierFault> {
    let opened: Opened<Lined> = Opened::open(lined)?;
    write_all::<Hexadecimal, _>(&opened, memory)
}

fn tell(rt: &HostRuntime, what: &str, answer: Result<Accepted, InputFault>) -> anyhow::Result<()> {
    match answer {
        Ok(Accepted { rows, sum }) => println!(rt; "{what}: {rows} rows, total {sum}")?,
        Err(fault) => {
            let refusal = fault.refusal();
            println!(rt; "{what}: {refusal}")?;
        }
    }
    Ok(())
}

fn run(rt: &HostRuntime) -> anyhow::Result<()> {
    let mut lined = [0u8; 3008];
    let mut digits = [0u8; 6004];
    if let Err(fault) = draft_file(&mut lined) {
        let number = fault.refusal().number;
        println!(rt; "the draft is refused with {number}")?;
        return Ok(());
    }
    println!(rt; "drafted and closed in the lined form: book P")?;
    let _ = to_hexadecimal(&lined, &mut digits);
    tell(
        rt,
        "checked in the hexadecimal form",
        check_in::<Hexadecimal, _>(&OutgoingReceipts, &digits),
    )?;
    // The last digit of the price, in position 201 of row 2.
    lined[952] = b'1';
    let _ = to_hexadecimal(&lined, &mut digits);
    tell(
        rt,
        "with a cent more in the price",
        check_in::<Hexadecimal, _>(&OutgoingReceipts, &digits),
    )
}

fn main(rt: HostRuntime) -> anyhow::Result<()> {
    run(&rt)
}
