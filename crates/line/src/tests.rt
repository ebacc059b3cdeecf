use crate::*;

fn batch(earliest: u8, rate: u32) -> Batch {
    Batch {
        earliest,
        latest: 9,
        due: 9,
        rate,
    }
}

fn earliest(earliest: u8, which: u8) -> ByEarliest {
    ByEarliest::of(batch(earliest, 1), which)
}

fn rate(rate: u32, which: u8) -> ByRate {
    ByRate::of(batch(1, rate), which)
}

#[test]
fn no_front_of_an_empty_line(rt: HostRuntime) {
    let line: [ByRate; 0] = [];
    assert_eq!(rt; front(&line), None);
}

#[test]
fn the_later_earliest_is_ahead(rt: HostRuntime) {
    assert_eq!(rt;
        front(&[earliest(2, 0), earliest(5, 1), earliest(3, 2)]),
        Some(1)
    );
}

#[test]
fn the_greater_rate_is_ahead(rt: HostRuntime) {
    assert_eq!(rt;
        front(&[rate(70, 0), rate(300, 1), rate(0, 2), rate(299, 3)]),
        Some(1)
    );
}

#[test]
fn a_tie_goes_to_the_lower_number(rt: HostRuntime) {
    assert_eq!(rt;
        front(&[earliest(4, 6), earliest(1, 0), earliest(4, 2)]),
        Some(2)
    );
    assert_eq!(rt; front(&[rate(8, 3), rate(8, 4)]), Some(0));
}

#[test]
fn the_first_of_two_equals_is_the_front(rt: HostRuntime) {
    assert_eq!(rt;
        front(&[earliest(1, 0), earliest(4, 2), earliest(4, 2)]),
        Some(1)
    );
}

#[test]
fn elements_tell_their_key_and_number(rt: HostRuntime) {
    let e = earliest(4, 31);
    assert!(rt; e.key() == 4 && e.number() == 31);
    let r = rate(4_000_000_000, 7);
    assert!(rt; r.key() == 4_000_000_000 && r.number() == 7);
}

#[test]
fn a_batch_waits_until_it_is_due(rt: HostRuntime) {
    let b = batch(1, 300);
    assert!(rt; b.wait(4) == 5 && b.charge(4) == 1500);
    assert!(rt; b.wait(9) == 0 && b.charge(10) == 0);
}
