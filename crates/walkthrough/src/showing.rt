// Actions and their answers, as lines of text.
use crate::drawing::draw;
use rule::Rule;
use std::io;
use windows::{Refusal, Windows};

// Prints what a call was asked and whether it was accepted.
pub(crate) fn report(rt: &HostRuntime, asked: &str, answer: Result<(), Refusal>) -> io::Result<()> {
    match answer {
        Ok(()) => println!(rt; "{asked}: accepted"),
        Err(refusal) => println!(rt; "{asked}: refused by {refusal}"),
    }
}

// Prints both ends of a batch's window, if there is such a batch.
pub(crate) fn ask(rt: &HostRuntime, windows: &Windows, batch: usize) -> io::Result<()> {
    match windows.window(batch) {
        Some((earliest, latest)) => println!(rt; "window of batch {batch}: {earliest} to {latest}"),
        None => println!(rt; "window of batch {batch}: nothing"),
    }
}

// Prints the floor of the windows under a rule.
pub(crate) fn price<R: Rule>(
    rt: &HostRuntime,
    name: &str,
    rule: &R,
    windows: &Windows,
) -> io::Result<()> {
    let floor = rule.floor(windows);
    println!(rt; "floor by {name}: {floor}")
}

// Narrows the windows by a rule and draws what is left.
pub(crate) fn narrow<R: Rule>(
    rt: &HostRuntime,
    name: &str,
    rule: &R,
    windows: &mut Windows,
    limit: u64,
) -> io::Result<()> {
    print!(rt; "narrow by {name} under the cap {limit}")?;
    report(rt, "", rule.narrow(windows, limit))?;
    draw(rt, windows)
}
