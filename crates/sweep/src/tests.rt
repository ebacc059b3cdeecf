use crate::*;
use line::Batch;
use std::test::Fail;

fn batch(earliest: u8, latest: u8, due: u8, rate: u32) -> Batch {
    Batch {
        earliest,
        latest,
        due,
        rate,
    }
}

// The batches of a list over some periods.
fn batches(periods: u8, list: &[Batch]) -> Option<Batches> {
    let mut each = [Batch::default(); 32];
    for (slot, batch) in each.iter_mut().zip(list) {
        *slot = *batch;
    }
    Batches::new(list.len(), periods, each)
}

#[test]
fn both_periods_are_used(rt: HostRuntime) -> Result<(), Fail> {
    let all = batches(2, &[batch(1, 2, 2, 1), batch(2, 2, 2, 1)]).ok_or("refused")?;
    let p = all.latest(&[1; 64]).ok_or("no schedule")?;
    assert!(rt; p[0] == 1 && p[1] == 2);
    assert_eq!(rt; all.waited(&p), 1);
    Ok(())
}

#[test]
fn three_batches_do_not_fit_two_periods(rt: HostRuntime) -> Result<(), Fail> {
    let all = batches(
        2,
        &[batch(1, 2, 2, 1), batch(2, 2, 2, 1), batch(1, 1, 2, 1)],
    )
    .ok_or("refused")?;
    assert_eq!(rt; all.latest(&[1; 64]), None);
    assert!(rt; all.latest(&[2; 64]).is_some());
    Ok(())
}

#[test]
fn the_batches_are_told_in_their_order(rt: HostRuntime) -> Result<(), Fail> {
    let all = batches(2, &[batch(1, 2, 2, 1), batch(2, 2, 2, 3)]).ok_or("refused")?;
    assert!(rt; all.each().len() == all.len() && all.last() == 2);
    assert_eq!(rt; all.without(0).each().first().copied(), all.batch(1));
    Ok(())
}

#[test]
fn no_batches_have_a_schedule(rt: HostRuntime) -> Result<(), Fail> {
    let all = batches(64, &[]).ok_or("refused")?;
    let p = all.latest(&[0; 64]).ok_or("no schedule")?;
    assert_eq!(rt; all.waited(&p), 0);
    Ok(())
}

#[test]
fn bad_batches_are_refused(rt: HostRuntime) {
    assert!(rt; batches(4, &[batch(3, 2, 4, 1)]).is_none());
    assert!(rt; batches(4, &[batch(1, 5, 5, 1)]).is_none());
    assert!(rt; batches(4, &[batch(0, 2, 4, 1)]).is_none());
    assert!(rt; batches(4, &[batch(1, 3, 2, 1)]).is_none());
    assert!(rt; batches(4, &[batch(1, 3, 3, 1); 33]).is_none());
    assert!(rt; batches(65, &[]).is_none());
}

#[test]
fn a_batch_can_be_held_to_a_period(rt: HostRuntime) -> Result<(), Fail> {
    let all = batches(3, &[batch(1, 3, 3, 1), batch(2, 3, 3, 1)]).ok_or("refused")?;
    let p = all.latest_with(&[1; 64], 0, 3).ok_or("no schedule")?;
    assert!(rt; p[0] == 3 && p[1] == 2);
    let q = all.latest_with(&[1; 64], 0, 1).ok_or("no schedule")?;
    assert!(rt; q[0] == 1 && q[1] == 3);
    assert_eq!(rt; all.latest_with(&[1; 64], 1, 1), None);
    assert_eq!(rt; all.latest_with(&[1; 64], 2, 0), None);
    Ok(())
}

#[test]
fn the_dear_batch_goes_late(rt: HostRuntime) -> Result<(), Fail> {
    let all = batches(4, &[batch(4, 4, 4, 2), batch(4, 4, 4, 5)]).ok_or("refused")?;
    assert_eq!(rt; all.latest(&[1; 64]), None);
    let p = all.cheapest_relaxed(&[1; 64]).ok_or("no schedule")?;
    assert!(rt; p[0] == 3 && p[1] == 4);
    Ok(())
}
