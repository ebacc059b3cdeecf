use flat::{Flat, Slots};
use rule::Rule;
use std::test::Fail;
use windows::{Refusal, Size, Windows};

#[test]
fn blank_rules_fit_blank_windows(rt: HostRuntime) {
    let mut windows = Windows::new();
    assert!(rt;
        Slots::new().fits(Size::new(0, 1))
            && Flat::new().fits(Size::new(0, 1))
            && !Flat::new().fits(Size::new(1, 1))
    );
    assert_eq!(rt; Slots::new().narrow(&mut windows, 0), Ok(()));
    assert_eq!(rt; Flat::new().narrow(&mut windows, 0), Ok(()));
    assert_eq!(rt; Flat::new().floor(&windows), 0);
}

#[test]
fn limits_of_the_tables(rt: HostRuntime) {
    let mut flat = Flat::new();
    assert_eq!(rt;
        flat.fill(Size::new(33, 4), &[1; 4], &[1; 33]),
        Err(Refusal::Limit)
    );
    assert_eq!(rt;
        flat.fill(Size::new(1, 65), &[1; 65], &[1]),
        Err(Refusal::Limit)
    );
    assert_eq!(rt;
        flat.fill(Size::new(1, 4), &[33; 3], &[0]),
        Err(Refusal::ListLength)
    );
    assert_eq!(rt;
        flat.fill(Size::new(1, 4), &[33; 4], &[0, 0]),
        Err(Refusal::ListLength)
    );
    assert_eq!(rt;
        flat.fill(Size::new(1, 4), &[33; 4], &[1]),
        Err(Refusal::Entry)
    );
    assert_eq!(rt;
        flat.fill(Size::new(1, 4), &[32; 4], &[0]),
        Err(Refusal::Entry)
    );
    assert_eq!(rt;
        flat.fill(Size::new(1, 4), &[32; 4], &[5]),
        Err(Refusal::Entry)
    );
    assert!(rt; flat.fits(Size::new(0, 1)));
    assert_eq!(rt; flat.fill(Size::new(32, 64), &[32; 64], &[64; 32]), Ok(()));
    assert!(rt; flat.fits(Size::new(32, 64)));
}

#[test]
fn a_period_of_capacity_0_takes_none(rt: HostRuntime) -> Result<(), Fail> {
    let mut windows = Windows::new();
    windows.fill(Size::new(2, 3), &[1, 2], &[3, 2])?;
    let mut slots = Slots::new();
    slots.fill(Size::new(2, 3), &[0, 1, 32])?;
    assert_eq!(rt; slots.floor(&windows), 0);
    assert_eq!(rt; slots.narrow(&mut windows, 0), Ok(()));
    assert_eq!(rt; windows.window(1), Some((3, 3)));
    slots.fill(Size::new(2, 3), &[32, 0, 32])?;
    assert_eq!(rt; slots.narrow(&mut windows, 0), Err(Refusal::NoSchedule));
    assert_eq!(rt; windows.window(2), Some((2, 2)));
    Ok(())
}

#[test]
fn the_later_batch_does_not_take_the_only_place(rt: HostRuntime) -> Result<(), Fail> {
    let mut windows = Windows::new();
    windows.fill(Size::new(2, 2), &[1, 2], &[2, 2])?;
    let mut flat = Flat::new();
    flat.fill(Size::new(2, 2), &[1, 1], &[2, 2])?;
    assert_eq!(rt; flat.floor(&windows), 1);
    assert_eq!(rt; flat.narrow(&mut windows, 1), Ok(()));
    assert_eq!(rt; windows.window(1), Some((1, 1)));
    assert_eq!(rt; windows.window(2), Some((2, 2)));
    Ok(())
}

#[test]
fn refusals_come_in_their_order(rt: HostRuntime) -> Result<(), Fail> {
    let mut windows = Windows::new();
    windows.fill(Size::new(1, 2), &[1], &[2])?;
    let mut flat = Flat::new();
    assert_eq!(rt; flat.narrow(&mut windows, u64::MAX), Err(Refusal::Unfit));
    assert_eq!(rt; flat.floor(&windows), 1_000_000_000_000);
    flat.fill(Size::new(1, 2), &[0, 0], &[2])?;
    assert_eq!(rt;
        flat.narrow(&mut windows, 1_000_000_000_001),
        Err(Refusal::CapTooHigh)
    );
    assert_eq!(rt;
        flat.narrow(&mut windows, 1_000_000_000_000),
        Err(Refusal::NoSchedule)
    );
    assert_eq!(rt; flat.floor(&windows), 1_000_000_000_000);
    assert_eq!(rt; windows.window(1), Some((1, 2)));
    Ok(())
}
