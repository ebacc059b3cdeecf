// Narrowing and pricing by rates.
use crate::drawing::draw;
use crate::showing::{narrow, price, report};
use rated::Rated;
use std::io;
use windows::{Size, Windows};

// Four batches of which the first may be early or in the last period, and nothing between.
pub(crate) fn by_rated(rt: &HostRuntime) -> io::Result<()> {
    println!(rt;
        "-- Rated: four batches over four periods, capacities 1, due 4, 3, 3, 4, rates 1, 10, 20, 2"
    )?;
    let mut windows = Windows::new();
    let latest = [4, 3, 3, 4];
    report(
        rt,
        "fill windows 1-4, 1-3, 1-3, 1-4",
        windows.fill(Size::new(4, 4), &[1; 4], &latest),
    )?;
    draw(rt, &windows)?;
    let mut rated = Rated::new();
    report(
        rt,
        "fill a rate of 10001",
        rated.fill(Size::new(4, 4), &[1; 4], &latest, &[1, 10, 20, 10_001]),
    )?;
    report(
        rt,
        "fill Rated",
        rated.fill(Size::new(4, 4), &[1; 4], &latest, &[1, 10, 20, 2]),
    )?;
    price(rt, "Rated", &rated, &windows)?;
    narrow(rt, "Rated", &rated, &mut windows, 20)?;
    narrow(rt, "Rated", &rated, &mut windows, 12)
}

// Six batches, with a period that takes none.
pub(crate) fn priced(rt: &HostRuntime) -> io::Result<()> {
    println!(rt;
        "-- Rated: six batches over eight periods, capacities 1 but 0 in period 3, due 4, 5, 4, 5, 8, 8, rates 3, 10, 4, 2, 2, 4"
    )?;
    let mut windows = Windows::new();
    let latest = [4, 5, 4, 5, 8, 8];
    report(
        rt,
        "fill windows from 1 to due",
        windows.fill(Size::new(6, 8), &[1; 6], &latest),
    )?;
    let mut rated = Rated::new();
    let capacities = [1, 1, 0, 1, 1, 1, 1, 1];
    report(
        rt,
        "fill Rated",
        rated.fill(Size::new(6, 8), &capacities, &latest, &[3, 10, 4, 2, 2, 4]),
    )?;
    price(rt, "Rated", &rated, &windows)
}
