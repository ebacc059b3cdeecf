// The schedule of windows of one period each.
ghost use Rattle.std.specs.Prelude.{◌≡◌, replicate};
ghost use Rattle.std.specs.List.{list_any};
ghost use Rattle.windows.specs.Schedules.{count};
ghost use Rattle.flat.specs.Tests.{within};
ghost use Rattle.reload.specs.Rules.{wide, places_of};

use windows::Window;

// Whether some window is not one period.
pub(crate) fn some_wide(each: &[Window]) -> bool
    ensures { result ≡ list_any wide each.now }
{
    each.iter().any(|window| window.earliest != window.latest)
}

// How many batches have period t.
fn batches_in(each: &[Window], t: u8) -> usize
    ensures { result ≡ count t (places_of each.now) }
{
    each.iter().filter(|window| window.earliest == t).count()
}

// Whether no two batches share one of the periods.
pub(crate) fn apart(each: &[Window], periods: u8) -> bool
    ensures { result ≡ within (replicate periods 1) 1 (places_of each.now) }
{
    // a shared period is that of some batch
    !each.iter().any(|window| {
        (1..=periods).contains(&window.earliest) && batches_in(each, window.earliest) > 1
    })
}
