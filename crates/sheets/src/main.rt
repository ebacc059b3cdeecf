//! Reads sheets from standard input, a line of hexadecimal each, and prints the listing of each and a line `--` after it.
#![tactic(auto)]

use crate::hex::decode;
use listing::list;
use std::io::{BufRead, BufReader, Write};

mod hex;

// Prints the listing of the sheet that a line stands for.
fn answer(rt: &HostRuntime, line: &[u8]) -> anyhow::Result<()> {
    match decode(rt.alloc(), line)? {
        None => println!(rt; "not hexadecimal")?,
        Some(sheet) => {
            let mut text = [0; 320];
            // as in `plan`: a crate for these lines would be no plainer
            match list(&sheet, &mut text) {
                Ok(length) => rt.stdout().write_all(&text[0..length])?,
                Err(refusal) => eprintln!(rt; "refused {refusal}")?,
            }
        }
    }
    println!(rt; "--")?;
    Ok(())
}

fn run(rt: &HostRuntime) -> anyhow::Result<()> {
    for line in BufReader::new(rt.alloc(), rt.stdin())?.split(rt.alloc(), b'\n') {
        answer(rt, &line?)?;
    }
    Ok(())
}

fn main(rt: HostRuntime) -> anyhow::Result<()> {
    run(&rt)
}
