use std::mem::size_of;
use windows::{Refusal, Size, Windows};

#[test]
fn blank_windows_have_one_period(rt: HostRuntime) {
    let windows = Windows::new();
    assert!(rt; windows.batches() == 0 && windows.periods() == 1);
    assert_eq!(rt; windows.window(1), None);
    assert_eq!(rt; size_of::<Windows>(), 66);
}

#[test]
fn limits_of_a_fill(rt: HostRuntime) {
    let mut windows = Windows::new();
    assert_eq!(rt;
        windows.fill(Size::new(33, 64), &[1; 33], &[64; 33]),
        Err(Refusal::Limit)
    );
    assert_eq!(rt;
        windows.fill(Size::new(32, 65), &[1; 32], &[64; 32]),
        Err(Refusal::Limit)
    );
    assert_eq!(rt;
        windows.fill(Size::new(0, 0), &[], &[]),
        Err(Refusal::Limit)
    );
    assert_eq!(rt;
        windows.fill(Size::new(32, 64), &[1; 31], &[64; 32]),
        Err(Refusal::ListLength)
    );
    assert_eq!(rt;
        windows.fill(Size::new(1, 4), &[0], &[4]),
        Err(Refusal::BadWindow)
    );
    assert_eq!(rt;
        windows.fill(Size::new(1, 4), &[3], &[2]),
        Err(Refusal::BadWindow)
    );
    assert_eq!(rt;
        windows.fill(Size::new(1, 4), &[1], &[5]),
        Err(Refusal::BadWindow)
    );
    assert!(rt; windows.batches() == 0 && windows.periods() == 1);
    assert_eq!(rt;
        windows.fill(Size::new(32, 64), &[1; 32], &[64; 32]),
        Ok(())
    );
    assert_eq!(rt; windows.window(32), Some((1, 64)));
    assert_eq!(rt; windows.window(0), None);
    assert_eq!(rt; windows.window(33), None);
}

#[test]
fn the_first_check_that_strikes_names_the_refusal(rt: HostRuntime) {
    let mut windows = Windows::new();
    assert_eq!(rt;
        windows.fill(Size::new(33, 4), &[0], &[]),
        Err(Refusal::Limit)
    );
    assert_eq!(rt;
        windows.fill(Size::new(2, 4), &[0], &[9, 9]),
        Err(Refusal::ListLength)
    );
    assert_eq!(rt; Refusal::SheetLength.number(), 1);
    assert_eq!(rt; Refusal::ShortMemory.number(), 14);
}
