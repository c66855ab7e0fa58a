// Runs many inputs through conferir and prints its line for each. Standard input has them one after the other:
// the length of the input in decimal digits, LF, the input, LF.
#![tactic(auto)]

mod cases;

use anyhow::anyhow;
use cases::next_case;
use std::io::{Read, Write};
use verdicts::lines::confer;

fn run(rt: &HostRuntime) -> anyhow::Result<()> {
    let mut bytes = Vec::new(rt.alloc());
    rt.stdin().read_to_end(&mut bytes)?;
    let mut rest = bytes.as_slice();
    while !rest.is_empty() {
        let Some((input, behind)) = next_case(rest) else {
            return Err(anyhow!("this is no list of cases"));
        };
        rt.stdout().write_all(confer(input).bytes())?;
        rest = behind;
    }
    Ok(())
}

fn main(rt: HostRuntime) -> anyhow::Result<()> {
    run(&rt)
}
