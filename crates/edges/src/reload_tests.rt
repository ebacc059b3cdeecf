use reload::Reload;
use rule::Rule;
use std::test::Fail;
use windows::{Refusal, Size, Windows};

// Three batches of the kinds 1, 2, 1 over four periods: 7 from kind 1 to kind 2, 30 from kind 2 to kind 1.
fn alternating() -> Result<Reload, Refusal> {
    let mut reload = Reload::new();
    reload.fill(Size::new(3, 4), 2, &[1, 2, 1], &[0, 7, 30, 0])?;
    Ok(reload)
}

// Windows over four periods.
fn over_four(earliest: &[u8], latest: &[u8]) -> Result<Windows, Refusal> {
    let mut windows = Windows::new();
    windows.fill(Size::new(earliest.len(), 4), earliest, latest)?;
    Ok(windows)
}

#[test]
fn eight_kinds_are_the_most(rt: HostRuntime) {
    let mut reload = Reload::new();
    assert_eq!(rt; reload.fill(Size::new(1, 1), 8, &[8], &[0; 64]), Ok(()));
    assert_eq!(rt;
        reload.fill(Size::new(1, 1), 9, &[8], &[0; 81]),
        Err(Refusal::Limit)
    );
    assert_eq!(rt;
        reload.fill(Size::new(0, 1), 0, &[], &[]),
        Err(Refusal::Limit)
    );
}

#[test]
fn kinds_are_numbered_from_one(rt: HostRuntime) {
    let mut reload = Reload::new();
    assert_eq!(rt;
        reload.fill(Size::new(1, 1), 2, &[0], &[0; 4]),
        Err(Refusal::Entry)
    );
    assert_eq!(rt;
        reload.fill(Size::new(1, 1), 2, &[3], &[0; 4]),
        Err(Refusal::Entry)
    );
    assert_eq!(rt;
        reload.fill(Size::new(2, 1), 2, &[0], &[0; 4]),
        Err(Refusal::ListLength)
    );
}

#[test]
fn charges_have_limits(rt: HostRuntime) {
    let mut reload = Reload::new();
    assert_eq!(rt;
        reload.fill(Size::new(0, 1), 2, &[], &[0, 10_000, 0, 0]),
        Ok(())
    );
    assert_eq!(rt;
        reload.fill(Size::new(0, 1), 2, &[], &[0, 10_001, 0, 0]),
        Err(Refusal::Entry)
    );
    assert_eq!(rt;
        reload.fill(Size::new(0, 1), 2, &[], &[0, 0, 0, 1]),
        Err(Refusal::Entry)
    );
    assert_eq!(rt;
        reload.fill(Size::new(0, 1), 2, &[], &[0; 3]),
        Err(Refusal::ListLength)
    );
}

#[test]
fn neighbours_in_order_of_period_draw(rt: HostRuntime) -> Result<(), Fail> {
    let reload = alternating()?;
    let mut windows = over_four(&[4, 2, 1], &[4, 2, 1])?;
    assert_eq!(rt; reload.floor(&windows), 37);
    assert_eq!(rt; reload.narrow(&mut windows, 37), Ok(()));
    assert_eq!(rt; reload.narrow(&mut windows, 36), Err(Refusal::NoSchedule));
    assert_eq!(rt; reload.floor(&over_four(&[4, 1, 2], &[4, 1, 2])?), 30);
    Ok(())
}

#[test]
fn a_shared_period_is_not_allowed(rt: HostRuntime) -> Result<(), Fail> {
    let reload = alternating()?;
    let mut windows = over_four(&[4, 2, 4], &[4, 2, 4])?;
    assert_eq!(rt; reload.floor(&windows), 0);
    assert_eq!(rt;
        reload.narrow(&mut windows, 1_000),
        Err(Refusal::NoSchedule)
    );
    let mut wide = over_four(&[4, 2, 3], &[4, 2, 4])?;
    assert_eq!(rt; reload.narrow(&mut wide, 0), Ok(()));
    Ok(())
}
