// Narrowing by capacities and due periods.
use crate::drawing::draw;
use crate::showing::{ask, narrow, price, report};
use flat::{Flat, Slots};
use rule::Rule;
use std::io;
use windows::{Size, Windows};

// Three batches, two of which need the last two of four periods: the first period takes none.
pub(crate) fn by_slots(rt: &HostRuntime) -> io::Result<()> {
    println!(rt; "-- Slots: three batches over four periods, capacities 0, 1, 1, 1")?;
    let mut windows = Windows::new();
    report(
        rt,
        "fill windows 3-4, 3-4, 1-4",
        windows.fill(Size::new(3, 4), &[3, 3, 1], &[4, 4, 4]),
    )?;
    draw(rt, &windows)?;
    let mut slots = Slots::new();
    report(
        rt,
        "fill capacities 0, 1, 1, 33",
        slots.fill(Size::new(3, 4), &[0, 1, 1, 33]),
    )?;
    report(
        rt,
        "fill capacities 0, 1, 1, 1",
        slots.fill(Size::new(3, 4), &[0, 1, 1, 1]),
    )?;
    narrow(rt, "Slots", &slots, &mut windows, 0)
}

// Five batches that wait as little as eight periods of capacity one allow.
pub(crate) fn by_flat(rt: &HostRuntime) -> io::Result<()> {
    println!(rt; "-- Flat: five batches over eight periods, capacities 1, due 3, 6, 7, 7, 8")?;
    let mut windows = Windows::new();
    let latest = [3, 6, 7, 7, 8];
    report(
        rt,
        "fill windows 1-3, 1-6, 1-7, 1-7, 1-9",
        windows.fill(Size::new(5, 8), &[1; 5], &[3, 6, 7, 7, 9]),
    )?;
    report(
        rt,
        "fill windows 1-3, 1-6, 1-7, 1-7, 1-8",
        windows.fill(Size::new(5, 8), &[1; 5], &latest),
    )?;
    ask(rt, &windows, 2)?;
    ask(rt, &windows, 6)?;
    draw(rt, &windows)?;
    let mut flat = Flat::new();
    report(rt, "narrow by a blank Flat", flat.narrow(&mut windows, 4))?;
    report(
        rt,
        "fill Flat",
        flat.fill(Size::new(5, 8), &[1; 8], &latest),
    )?;
    price(rt, "Flat", &flat, &windows)?;
    narrow(rt, "Flat", &flat, &mut windows, 1)?;
    narrow(rt, "Flat", &flat, &mut windows, 1_000_000_000_001)?;
    narrow(rt, "Flat", &flat, &mut windows, 4)?;
    narrow(rt, "Flat", &flat, &mut windows, 2)
}
