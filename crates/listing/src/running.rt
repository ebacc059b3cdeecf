// Searching with a limited number of steps.
ghost use Rattle.std.specs.Prelude.{◌≡◌, ◌≤◌, true, false};
ghost use Rattle.windows.specs.Filling.{set_of};
ghost use Rattle.runs.specs.Run.{is_idle};
ghost use Rattle.runs.specs.Law.{opens};
ghost use Rattle.search.specs.Held.{state};
ghost use Rattle.report.specs.Texts.{plan_in};
ghost use Rattle.listing.specs.Running.{steps_until_done, HasSize, searched, searched_text, result_text, Ended};

use report::{Outcome, Plan};
use rule::Rule;
use runs::Phase;
use search::Search;
use windows::{Refusal, Windows};

// The greatest number of steps.
const MAX_STEPS: u32 = 1_000_000;

// Steps a search until it is done, at most so often.
#[tactic(auto, using(crate::proofs::Budgets::none_left, crate::proofs::Budgets::at_end, crate::proofs::Budgets::goes_on))]
fn run<R: Rule>(search: &mut Search<R>, budget: u32)
    ensures same { search.new.rule ≡ search.old.rule }
    ensures ran { state search.new.inner ≡ steps_until_done (R.Rule.meaning search.old.rule) budget (state search.old.inner) }
{
    for _ in 0..budget {
        if search.phase() == Phase::Done {
            break;
        }
        let _ = search.step();
    }
}

// The plan that a search holds, if there is one, of so many batches.
fn held_plan<R: Rule>(search: &Search<R>, batches: usize) -> Option<Plan>
    requires few { batches ≤ 32 }
    requires awake { is_idle (state search.now.inner).phase ≡ false }
    requires sized { HasSize batches (state search.now.inner).plan }
    ensures { plan_in result ≡ (state search.now.inner).plan }
{
    let mut periods = [0; 32];
    let (charge, _) = search.read(&mut periods).ok()?;
    Some(Plan {
        charge,
        count: batches,
        periods,
    })
}

// Searches windows under a rule and a cap, for at most a million steps; refused if the search can't be opened.
pub(crate) fn search_for<R: Rule + Drop>(
    rule: R,
    windows: &Windows,
    limit: u64,
) -> Result<Outcome, Refusal>
    ensures text { result_text result ≡ searched_text (R.Rule.meaning rule) (set_of windows.now) limit 1000000 }
    ensures ended { opens (R.Rule.meaning rule) (set_of windows.now) limit ≡ true → Ended (R.Rule.meaning rule) (record { windows = set_of windows.now; cap = limit }) 1000000 (searched (R.Rule.meaning rule) (set_of windows.now) limit 1000000) }
{
    let mut search = Search::new(rule);
    search.open(windows, limit)?;
    run(&mut search, MAX_STEPS);
    let plan = held_plan(&search, windows.batches());
    if search.phase() == Phase::Done {
        Ok(Outcome::Done(plan))
    } else {
        Ok(Outcome::Stopped(plan))
    }
}
