// A search followed step by step.
use crate::drawing::draw;
use crate::showing::report;
use flat::Flat;
use rule::Rule;
use search::{Phase, Search};
use std::io;
use windows::{Size, Windows};

// Prints the phase, the open parts and the charge held.
fn look<R: Rule>(rt: &HostRuntime, search: &Search<R>) -> io::Result<()> {
    let phase = search.phase();
    print!(rt; "  {phase}")?;
    if phase == Phase::Running {
        let parts = search.open_parts();
        print!(rt; ", open parts {parts}")?;
    }
    match search.held_charge() {
        Some(charge) => println!(rt; ", plan held at {charge}"),
        None => println!(rt; ", no plan"),
    }
}

// Makes a step and prints what became of the newest part.
fn advance<R: Rule>(rt: &HostRuntime, search: &mut Search<R>) -> io::Result<()> {
    match search.step() {
        Ok(step) => println!(rt; "step: {step}")?,
        Err(refusal) => report(rt, "step", Err(refusal))?,
    }
    look(rt, search)
}

// Lowers the cap and prints what is left.
fn tighten<R: Rule>(rt: &HostRuntime, search: &mut Search<R>, limit: u64) -> io::Result<()> {
    print!(rt; "tighten to {limit}")?;
    report(rt, "", search.tighten(limit))?;
    look(rt, search)
}

// Reads the plan and prints it.
fn read<R: Rule>(rt: &HostRuntime, search: &Search<R>) -> io::Result<()> {
    let mut memory = [0; 2];
    match search.read(&mut memory) {
        Ok((charge, _)) => {
            println!(rt; "read: charge {charge}")?;
            for (k, period) in memory.iter().enumerate() {
                let batch = k + 1;
                println!(rt; "  batch {batch} in period {period}")?;
            }
            Ok(())
        }
        Err(refusal) => report(rt, "read", Err(refusal)),
    }
}

// Two batches that share two periods of capacity one.
pub(crate) fn by_search(rt: &HostRuntime) -> io::Result<()> {
    println!(rt; "-- A search under Flat: two batches over two periods, capacities 1, due 2")?;
    let mut windows = Windows::new();
    report(
        rt,
        "fill windows 1-2, 1-2",
        windows.fill(Size::new(2, 2), &[1; 2], &[2; 2]),
    )?;
    draw(rt, &windows)?;
    let mut flat = Flat::new();
    report(
        rt,
        "fill Flat",
        flat.fill(Size::new(2, 2), &[1; 2], &[2; 2]),
    )?;
    let mut search = Search::new(flat);
    look(rt, &search)?;
    advance(rt, &mut search)?;
    report(rt, "open under the cap 5", search.open(&windows, 5))?;
    look(rt, &search)?;
    advance(rt, &mut search)?;
    advance(rt, &mut search)?;
    advance(rt, &mut search)?;
    advance(rt, &mut search)?;
    read(rt, &search)?;
    tighten(rt, &mut search, 1)?;
    tighten(rt, &mut search, 1)?;
    tighten(rt, &mut search, 0)?;
    read(rt, &search)
}
