// The calls on a search.
ghost use Rattle.std.specs.Prelude.{◌≡◌, [], length};
ghost use Rattle.windows.specs.Refusals.{struck, Judged};
ghost use Rattle.windows.specs.Filling.{set_of};
ghost use Rattle.runs.specs.Run.{fresh, refusal, «open», step, tighten, read, step_answer};
ghost use Rattle.runs.specs.Law.{Upheld};
ghost use Rattle.search.specs.Held.{state, call_of};
ghost use Rattle.search.specs.Promises.{checked, Goes, Answers, Reads};

use crate::call::Call;
use crate::inner::Inner;
use crate::search::Search;
use rule::{MAX_CHARGE, Rule, admit};
use runs::{Phase, Step};
use windows::{Refusal, Windows};

impl<R: Rule> Search<R> {
    // A search around a rule, idle.
    pub fn new(rule: R) -> Search<R>
        ensures same { result.rule ≡ rule }
        ensures starts { state result.inner ≡ fresh }
        ensures law { Upheld (R.Rule.meaning rule) [] (state result.inner) }
    {
        Search {
            rule,
            inner: Inner::new(),
        }
    }

    // Whether a call is accepted, by the phase and the call together: the first check that strikes.
    fn judge(&self, call: &Call) -> Result<(), Refusal>
        ensures { Judged (struck (checked (R.Rule.meaning self.now.rule) (state self.now.inner) (call_of call.now))) result }
    {
        match (self.inner.phase, call) {
            (_, Call::Open(windows, limit)) => admit(self.rule.fits(windows.size()), *limit),
            (_, Call::Tighten(limit)) if *limit > MAX_CHARGE => Err(Refusal::CapTooHigh),
            (Phase::Idle, _) => Err(Refusal::Idle),
            (Phase::Done, Call::Step) => Err(Refusal::Done),
            (_, Call::Tighten(limit)) if *limit >= self.inner.cap => Err(Refusal::CapNotLower),
            (_, Call::Step | Call::Tighten(_) | Call::Read(_)) => Ok(()),
        }
    }

    // Opens a search of the windows under a cap, in any phase: they become its one open part, and no plan is held.
    pub fn open(&mut self, windows: &Windows, limit: u64) -> Result<(), Refusal>
        ensures same { self.new.rule ≡ self.old.rule }
        ensures goes { Goes (R.Rule.meaning self.old.rule) («open» (set_of windows.now) limit) (state self.old.inner) (state self.new.inner) }
        ensures answer { Answers (refusal (R.Rule.meaning self.old.rule) (state self.old.inner) («open» (set_of windows.now) limit)) (λ _. Unit {0}) (self.new ≡ self.old) result }
    {
        self.judge(&Call::Open(*windows, limit))?;
        self.inner.start(windows, limit);
        Ok(())
    }

    // Takes the newest part to its fate, and answers which it was.
    pub fn step(&mut self) -> Result<Step, Refusal>
        ensures same { self.new.rule ≡ self.old.rule }
        ensures goes { Goes (R.Rule.meaning self.old.rule) step (state self.old.inner) (state self.new.inner) }
        ensures answer { Answers (refusal (R.Rule.meaning self.old.rule) (state self.old.inner) step) (λ k. k ≡ step_answer (R.Rule.meaning self.old.rule) (state self.old.inner) (state self.old.inner).parts) (self.new ≡ self.old) result }
    {
        self.judge(&Call::Step)?;
        Ok(self.inner.advance(&self.rule))
    }

    // Lowers the cap, and drops a held plan whose charge is above it.
    pub fn tighten(&mut self, limit: u64) -> Result<(), Refusal>
        ensures same { self.new.rule ≡ self.old.rule }
        ensures goes { Goes (R.Rule.meaning self.old.rule) (tighten limit) (state self.old.inner) (state self.new.inner) }
        ensures answer { Answers (refusal (R.Rule.meaning self.old.rule) (state self.old.inner) (tighten limit)) (λ _. Unit {0}) (self.new ≡ self.old) result }
    {
        self.judge(&Call::Tighten(limit))?;
        self.inner.lower(limit);
        Ok(())
    }

    // Writes the plan held as one byte for each batch, and answers its charge and whether the search is done: two answers that a
    // host asks for at once, of which neither says what the other is.
    pub fn read(&self, memory: &mut [u8]) -> Result<(u64, bool), Refusal>
        ensures goes { Goes (R.Rule.meaning self.now.rule) (read (length memory.old)) (state self.now.inner) (state self.now.inner) }
        ensures answer { Answers (refusal (R.Rule.meaning self.now.rule) (state self.now.inner) (read (length memory.old))) (Reads (state self.now.inner) memory.old memory.new (state self.now.inner).plan) (memory.new ≡ memory.old) result }
    {
        self.judge(&Call::Read(memory.len()))?;
        let held = self.inner.plan.as_ref().ok_or(Refusal::NoPlan)?;
        held.windows.write_earliest(memory)?;
        Ok((held.charge, self.phase() == Phase::Done))
    }
}
