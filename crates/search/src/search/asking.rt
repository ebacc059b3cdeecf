// What a host may ask of a search.
ghost use Rattle.std.specs.Prelude.{◌≡◌, length};
ghost use Rattle.search.specs.Held.{state};
ghost use Rattle.search.specs.Promises.{charge_held, cap_standing};

use crate::search::Search;
use rule::Rule;
use runs::Phase;

impl<R: Rule> Search<R> {
    // The phase that the search is in.
    pub fn phase(&self) -> Phase
        ensures { result ≡ (state self.now.inner).phase }
    {
        self.inner.phase
    }

    // How many parts are open.
    pub fn open_parts(&self) -> usize
        ensures { result ≡ length (state self.now.inner).parts }
    {
        self.inner.count
    }

    // The charge of the plan held, if there is one.
    pub fn held_charge(&self) -> Option<u64>
        ensures { result ≡ charge_held (state self.now.inner).plan }
    {
        self.inner.plan.map(|held| held.charge)
    }

    // The cap standing; none while the search is idle.
    pub fn cap(&self) -> Option<u64>
        ensures { result ≡ cap_standing (state self.now.inner) }
    {
        match self.phase() {
            Phase::Idle => None,
            Phase::Running | Phase::Done => Some(self.inner.cap),
        }
    }
}
