use flat::{Flat, Slots};
use search::{Call, Phase, Search, Step, replay};
use std::mem::size_of;
use std::test::Fail;
use windows::{Refusal, Size, Windows};

// Two batches in windows 1-2 that are due in period 2, one to a period.
fn two_batches() -> Result<(Windows, Flat), Refusal> {
    let mut windows = Windows::new();
    windows.fill(Size::new(2, 2), &[1, 1], &[2, 2])?;
    let mut flat = Flat::new();
    flat.fill(Size::new(2, 2), &[1, 1], &[2, 2])?;
    Ok((windows, flat))
}

#[test]
fn a_search_fits_in_16_kibibytes(rt: HostRuntime) -> Result<(), Fail> {
    let windows = size_of::<Windows>();
    let alone = size_of::<Search<()>>();
    let slots = size_of::<Search<Slots>>();
    let flat = size_of::<Search<Flat>>();
    println!(rt;
        "bytes: windows {windows}, search around a unit rule {alone}, Slots {slots}, Flat {flat}"
    )?;
    assert_eq!(rt; windows, 66);
    assert_eq!(rt; alone, 12856);
    assert!(rt; alone <= 16 * 1024);
    Ok(())
}

#[test]
fn three_steps_find_the_plan(rt: HostRuntime) -> Result<(), Fail> {
    let (windows, flat) = two_batches()?;
    let mut search = Search::new(flat);
    assert_eq!(rt; search.phase(), Phase::Idle);
    assert_eq!(rt; search.cap(), None);
    assert_eq!(rt; search.open(&windows, 5), Ok(()));
    assert_eq!(rt; search.step(), Ok(Step::Split));
    assert_eq!(rt; search.open_parts(), 2);
    assert_eq!(rt; search.step(), Ok(Step::Plan));
    assert_eq!(rt; search.held_charge(), Some(1));
    assert_eq!(rt; search.phase(), Phase::Running);
    assert_eq!(rt; search.step(), Ok(Step::Closed));
    assert_eq!(rt; search.phase(), Phase::Done);
    let mut memory = [9; 3];
    assert_eq!(rt; search.read(&mut memory), Ok((1, true)));
    assert_eq!(rt; memory, [2, 1, 9]);
    assert_eq!(rt; search.tighten(1), Ok(()));
    assert_eq!(rt; search.held_charge(), Some(1));
    assert_eq!(rt; search.tighten(0), Ok(()));
    assert_eq!(rt; search.held_charge(), None);
    assert_eq!(rt; search.phase(), Phase::Done);
    assert_eq!(rt; search.cap(), Some(0));
    Ok(())
}

#[test]
fn no_batches_are_planned_in_one_step(rt: HostRuntime) {
    let mut search = Search::new(Slots::new());
    assert_eq!(rt; search.open(&Windows::new(), 0), Ok(()));
    assert_eq!(rt; search.step(), Ok(Step::Plan));
    assert_eq!(rt; search.step(), Err(Refusal::Done));
    assert_eq!(rt; search.read(&mut []), Ok((0, true)));
}

#[test]
fn one_batch_of_64_periods_opens_7_parts(rt: HostRuntime) -> Result<(), Fail> {
    let mut windows = Windows::new();
    windows.fill(Size::new(1, 64), &[1], &[64])?;
    let mut slots = Slots::new();
    slots.fill(Size::new(1, 64), &[1; 64])?;
    let mut search = Search::new(slots);
    assert_eq!(rt; search.open(&windows, 0), Ok(()));
    for parts in 2..8 {
        assert_eq!(rt; search.step(), Ok(Step::Split));
        assert_eq!(rt; search.open_parts(), parts);
    }
    assert_eq!(rt; search.step(), Ok(Step::Plan));
    assert_eq!(rt; search.open_parts(), 6);
    let mut memory = [0; 1];
    assert_eq!(rt; search.read(&mut memory), Ok((0, false)));
    assert_eq!(rt; memory, [64]);
    Ok(())
}

#[test]
fn refused_calls_change_nothing(rt: HostRuntime) -> Result<(), Fail> {
    let (windows, flat) = two_batches()?;
    let mut search = Search::new(flat);
    let mut memory = [7; 2];
    assert_eq!(rt; search.step(), Err(Refusal::Idle));
    assert_eq!(rt; search.tighten(1_000_000_000_001), Err(Refusal::CapTooHigh));
    assert_eq!(rt; search.tighten(3), Err(Refusal::Idle));
    assert_eq!(rt; search.read(&mut memory), Err(Refusal::Idle));
    assert_eq!(rt;
        search.open(&Windows::new(), 1_000_000_000_001),
        Err(Refusal::Unfit)
    );
    assert_eq!(rt;
        search.open(&windows, 1_000_000_000_001),
        Err(Refusal::CapTooHigh)
    );
    assert_eq!(rt; search.phase(), Phase::Idle);
    assert_eq!(rt; search.open(&windows, 1_000_000_000_000), Ok(()));
    assert_eq!(rt; search.read(&mut memory), Err(Refusal::NoPlan));
    assert_eq!(rt;
        search.tighten(1_000_000_000_000),
        Err(Refusal::CapNotLower)
    );
    assert_eq!(rt; search.step(), Ok(Step::Split));
    assert_eq!(rt; search.step(), Ok(Step::Plan));
    assert_eq!(rt; search.read(&mut memory[0..1]), Err(Refusal::ShortMemory));
    assert_eq!(rt; memory, [7; 2]);
    assert!(rt; search.open_parts() == 1 && search.cap() == Some(1_000_000_000_000));
    Ok(())
}

#[test]
fn a_list_of_calls_is_replayed(rt: HostRuntime) -> Result<(), Fail> {
    let (windows, flat) = two_batches()?;
    let search = replay(
        flat,
        &[
            Call::Step,
            Call::Open(windows, 5),
            Call::Step,
            Call::Step,
            Call::Read(2),
            Call::Tighten(0),
            Call::Step,
        ],
    );
    assert_eq!(rt; search.phase(), Phase::Done);
    assert_eq!(rt; search.held_charge(), None);
    assert_eq!(rt; search.cap(), Some(0));
    Ok(())
}
