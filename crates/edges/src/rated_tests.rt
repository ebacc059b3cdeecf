use rated::Rated;
use rule::Rule;
use windows::{Refusal, Size, Windows};

// Batch 1 can be afforded in 1 and in 4, but not between, and so can batch 4: their windows stay as they are.
#[test]
fn a_dear_period_does_not_pull_the_latest_in(rt: HostRuntime) {
    let dues = [4, 3, 3, 4];
    let mut rule = Rated::new();
    assert_eq!(rt;
        rule.fill(Size::new(4, 4), &[1; 4], &dues, &[1, 10, 20, 2]),
        Ok(())
    );
    let mut windows = Windows::new();
    assert_eq!(rt; windows.fill(Size::new(4, 4), &[1; 4], &dues), Ok(()));
    assert_eq!(rt; rule.narrow(&mut windows, 20), Ok(()));
    assert_eq!(rt; windows.window(1), Some((1, 4)));
    assert_eq!(rt; windows.window(2), Some((2, 2)));
    assert_eq!(rt; windows.window(3), Some((3, 3)));
    assert_eq!(rt; windows.window(4), Some((1, 4)));
}

#[test]
fn six_batches_cost_at_least_16(rt: HostRuntime) {
    let capacities = [1, 1, 0, 1, 1, 1, 1, 1];
    let dues = [4, 5, 4, 5, 8, 8];
    let mut rule = Rated::new();
    assert_eq!(rt;
        rule.fill(Size::new(6, 8), &capacities, &dues, &[3, 10, 4, 2, 2, 4]),
        Ok(())
    );
    let mut windows = Windows::new();
    assert_eq!(rt; windows.fill(Size::new(6, 8), &[1; 6], &dues), Ok(()));
    assert_eq!(rt; rule.floor(&windows), 16);
}

#[test]
fn a_rate_is_at_most_10000(rt: HostRuntime) {
    let mut rule = Rated::new();
    assert_eq!(rt;
        rule.fill(Size::new(1, 2), &[1, 1], &[2], &[10_000]),
        Ok(())
    );
    assert_eq!(rt;
        rule.fill(Size::new(1, 2), &[1, 1], &[2], &[10_001]),
        Err(Refusal::Entry)
    );
    let mut windows = Windows::new();
    assert_eq!(rt; windows.fill(Size::new(1, 2), &[1], &[1]), Ok(()));
    assert_eq!(rt; rule.floor(&windows), 10_000);
}
