// A list of calls on a fresh search.
ghost use Rattle.std.specs.Prelude.{◌≡◌, map, reverse};
ghost use Rattle.runs.specs.Run.{after};
ghost use Rattle.runs.specs.Law.{Upheld};
ghost use Rattle.search.specs.Held.{state, call_of};
ghost use Rattle.search.specs.Promises.{Goes};

use crate::call::Call;
use crate::search::Search;
use rule::Rule;

impl<R: Rule> Search<R> {
    // Makes a call and lets its answer go. It keeps the rule, as each of the calls promises.
    fn apply(&mut self, call: &Call)
        ensures same { self.new.rule ≡ self.old.rule }
        ensures goes { Goes (R.Rule.meaning self.old.rule) (call_of call.now) (state self.old.inner) (state self.new.inner) }
    {
        match *call {
            Call::Open(windows, limit) => {
                let _ = self.open(&windows, limit);
            }
            Call::Step => {
                let _ = self.step();
            }
            Call::Tighten(limit) => {
                let _ = self.tighten(limit);
            }
            Call::Read(room) => {
                let mut memory = [0; 32];
                let _ = self.read(&mut memory[0..room.min(32)]);
            }
        }
    }
}

// The search after a list of calls, the oldest first.
pub fn replay<R: Rule>(rule: R, calls: &[Call]) -> Search<R>
    ensures same { result.rule ≡ rule }
    ensures exact { state result.inner ≡ after (R.Rule.meaning rule) (reverse (map call_of calls.now)) }
    ensures law { Upheld (R.Rule.meaning rule) (reverse (map call_of calls.now)) (state result.inner) }
{
    let mut search = Search::new(rule);
    for call in calls {
        search.apply(call);
    }
    search
}
