//! Reads a sheet from standard input and prints its plan.
#![tactic(auto)]

use listing::list;
use std::io::{Read, Write};

// The most that is read. The longest sheet has 399 bytes.
const MAX_INPUT: u64 = 1_024;

fn run(rt: &HostRuntime) -> anyhow::Result<()> {
    let mut sheet = Vec::new(rt.alloc());
    rt.stdin().take(MAX_INPUT).read_to_end(&mut sheet)?;
    let mut text = [0; 320];
    // as in `sheets`: a crate for these lines would be no plainer
    match list(&sheet, &mut text) {
        Ok(length) => rt.stdout().write_all(&text[0..length])?,
        Err(refusal) => eprintln!(rt; "refused {refusal}")?,
    }
    Ok(())
}

fn main(rt: HostRuntime) -> anyhow::Result<()> {
    run(&rt)
}
