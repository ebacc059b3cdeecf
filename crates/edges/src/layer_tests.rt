use flat::{Flat, Slots};
use layers::{Pair, Weight, Weighted};
use rule::Rule;
use std::test::Fail;
use windows::{Refusal, Size, Windows};

#[test]
fn weights_are_1_to_100(rt: HostRuntime) {
    assert_eq!(rt; Weight::new(0), Err(Refusal::Limit));
    assert_eq!(rt; Weight::new(1).map(Weight::get), Ok(1));
    assert_eq!(rt; Weight::new(100).map(Weight::get), Ok(100));
    assert_eq!(rt; Weight::new(101), Err(Refusal::Limit));
    assert_eq!(rt; Weight::try_from(100).map(u8::from), Ok(100));
    assert_eq!(rt; Weight::try_from(101), Err(Refusal::Limit));
}

// Two batches over two periods of capacity one, both due in the second.
fn waiting() -> Result<Flat, Refusal> {
    let mut flat = Flat::new();
    flat.fill(Size::new(2, 2), &[1, 1], &[2, 2])?;
    Ok(flat)
}

#[test]
fn a_weighted_cap_is_divided(rt: HostRuntime) -> Result<(), Fail> {
    let mut windows = Windows::new();
    windows.fill(Size::new(2, 2), &[1, 1], &[2, 2])?;
    let rule = Weighted::new(Weight::new(3)?, waiting()?);
    assert_eq!(rt; rule.floor(&windows), 3);
    assert_eq!(rt; rule.narrow(&mut windows, 2), Err(Refusal::NoSchedule));
    assert_eq!(rt; rule.narrow(&mut windows, 3), Ok(()));
    assert_eq!(rt; windows.window(1), Some((1, 2)));
    Ok(())
}

#[test]
fn neither_side_of_a_pair_has_the_whole_cap(rt: HostRuntime) -> Result<(), Fail> {
    let mut windows = Windows::new();
    windows.fill(Size::new(2, 2), &[1, 1], &[2, 2])?;
    let pair = Pair::new(waiting()?, waiting()?);
    assert_eq!(rt; pair.floor(&windows), 2);
    assert_eq!(rt; pair.narrow(&mut windows, 1), Err(Refusal::NoSchedule));
    assert_eq!(rt; pair.narrow(&mut windows, 2), Ok(()));
    let apart = Pair::new(waiting()?, Slots::new());
    assert!(rt; !apart.fits(Size::new(2, 2)));
    assert_eq!(rt; apart.narrow(&mut windows, 2), Err(Refusal::Unfit));
    assert_eq!(rt; apart.floor(&windows), 1_000_000_000_000);
    Ok(())
}
