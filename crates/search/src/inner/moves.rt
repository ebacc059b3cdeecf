// The moves of a search, under a rule that is passed to them.
ghost use Rattle.std.specs.Prelude.{◌≡◌, ◌==◌, cond, [], ◌∷◌, None};
ghost use Rattle.windows.specs.Filling.{set_of};
ghost use Rattle.runs.specs.declared.phase.Phase.TheVariants.{Running, Done};
ghost use Rattle.runs.specs.Run.{fresh, holding, within_cap, limit_of, stepped, step_answer};
ghost use Rattle.search.specs.Held.{state, plan_of};

use crate::held::Held;
use crate::inner::Inner;
use crate::left::{Left, left_of};
use rule::Rule;
use runs::{Phase, Step};
use windows::Windows;

// The phase of an opened search with so many open parts.
fn phase_of(parts: usize) -> Phase
    ensures { result ≡ cond (parts == 0) Done Running }
{
    if parts == 0 {
        Phase::Done
    } else {
        Phase::Running
    }
}

impl Inner {
    // Idle, with no part and no plan.
    #[inline(always)] // the table is made where it stays
    pub(crate) fn new() -> Inner
        ensures { state result ≡ fresh }
    {
        Inner {
            phase: Phase::Idle,
            cap: 0,
            parts: [Windows::new(); 193],
            count: 0,
            plan: None,
        }
    }

    // The windows become the one open part, under a cap, and no plan is held.
    pub(crate) fn start(&mut self, windows: &Windows, limit: u64)
        ensures { state self.new ≡ holding limit None (set_of windows.now ∷ []) }
    {
        self.phase = Phase::Running;
        self.cap = limit;
        self.parts[0] = *windows;
        self.count = 1;
        self.plan = None;
    }

    // Lowers the cap, and drops a plan above it.
    pub(crate) fn lower(&mut self, limit: u64)
        ensures { state self.new ≡ record (state self.old) { cap = limit; plan = within_cap limit (state self.old).plan } }
    {
        self.cap = limit;
        self.plan.take_if(|held| held.charge > limit);
    }

    // The limit of a step: the cap, or one less than the charge held. There is none below a charge of 0.
    fn limit(&self) -> Option<u64>
        ensures { result ≡ limit_of self.now.cap (plan_of self.now.plan) }
    {
        self.plan
            .as_ref()
            .map_or(Some(self.cap), |held| held.charge.checked_sub(1))
    }

    // Takes the newest part off, to its fate in its place in the table. Its halves, if it is split, are put back, the later on top.
    #[tactic(auto, using(crate::proofs::Tables::stack_top, crate::proofs::Tables::stack_halves))]
    pub(crate) fn advance<R: Rule>(&mut self, rule: &R) -> Step
        requires { self.old.phase ≡ Running }
        ensures left { state self.new ≡ stepped (R.Rule.meaning rule.now) (state self.old) (state self.old).parts }
        ensures answer { result ≡ step_answer (R.Rule.meaning rule.now) (state self.old) (state self.old).parts }
    {
        let limit = self.limit();
        self.count -= 1;
        let parts = &mut self.parts; // by itself: no element is lent out of a whole with ghost fields
        match left_of(rule, &mut parts[self.count], limit) {
            None => {
                self.phase = phase_of(self.count);
                Step::Closed
            }
            Some(Left::Plan(charge)) => {
                let windows = self.parts[self.count];
                self.plan = Some(Held { windows, charge });
                self.phase = phase_of(self.count);
                Step::Plan
            }
            Some(Left::Halves(later)) => {
                self.parts[self.count + 1] = later;
                self.count += 2;
                Step::Split
            }
        }
    }
}
