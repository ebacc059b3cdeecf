// A pair of weighted rates and reloads.
use crate::drawing::draw;
use crate::showing::{narrow, price, report};
use layers::{Pair, Weight, Weighted};
use rated::Rated;
use reload::Reload;
use std::io;
use windows::{Size, Windows};

// Two batches of different kinds over three periods: waiting counts twice, and a change of kind costs 5 one way and 3 the other.
pub(crate) fn by_pair(rt: &HostRuntime) -> io::Result<()> {
    println!(rt;
        "-- Pair of Rated with the weight 2 and Reload: kinds 1 and 2, rates 4 and 1, due 3, from 1 to 2 for 5, from 2 to 1 for 3"
    )?;
    let mut rated = Rated::new();
    report(
        rt,
        "fill Rated",
        rated.fill(Size::new(2, 3), &[1; 3], &[3, 3], &[4, 1]),
    )?;
    let mut reload = Reload::new();
    report(
        rt,
        "fill a charge of kind 1 to itself",
        reload.fill(Size::new(2, 3), 2, &[1, 2], &[1, 5, 3, 0]),
    )?;
    report(
        rt,
        "fill Reload",
        reload.fill(Size::new(2, 3), 2, &[1, 2], &[0, 5, 3, 0]),
    )?;
    let weight = match Weight::new(2) {
        Ok(weight) => weight,
        Err(refusal) => return report(rt, "weight 2", Err(refusal)),
    };
    let pair = Pair::new(Weighted::new(weight, rated), reload);
    let mut windows = Windows::new();
    report(
        rt,
        "fill windows 1-3, 1-3",
        windows.fill(Size::new(2, 3), &[1; 2], &[3; 2]),
    )?;
    draw(rt, &windows)?;
    price(rt, "the pair", &pair, &windows)?;
    narrow(rt, "the pair", &pair, &mut windows, 1)?;
    narrow(rt, "the pair", &pair, &mut windows, 8)?;
    report(
        rt,
        "fill windows 3-3, 2-2",
        windows.fill(Size::new(2, 3), &[3, 2], &[3, 2]),
    )?;
    price(rt, "the pair", &pair, &windows)?;
    narrow(rt, "the pair", &pair, &mut windows, 5)?;
    narrow(rt, "the pair", &pair, &mut windows, 4)
}
