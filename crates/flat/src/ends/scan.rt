// The search for the ends: for each end of each window, the outermost period that a good schedule supports.
ghost use Rattle.std.specs.Prelude.{◌≡◌, ℕ, ◌<◌, List, length, MatchOption};
ghost use Rattle.std.specs.Option.{ForSome};
ghost use Rattle.sweep.specs.Held.{listed};
ghost use Rattle.flat.specs.Ends.{Good, placed_in, Taken, Supported, Reached, Wider, Hulled};

use crate::ends::{Ends, Sought};

// The ends found so far, each the period of its batch in a good schedule. What is sought stays: each method that moves the ends
// says so, as it would of a reference here.
#[derive(Clone, Copy)]
struct Found {
    sought: Sought,
    ends: Ends,
    ghost supported: { ∥ Supported sought ends ∥₁ },
}

impl Found {
    // Moves the ends outward to hold a good schedule, if there is one.
    fn hold(&mut self, placed: Option<[u8; 32]>)
        requires { ForSome placed (λ p. Good self.old.sought (placed_in self.old.sought p)) }
        ensures same { self.new.sought ≡ self.old.sought }
        ensures held { MatchOption placed (self.new.ends ≡ self.old.ends) (λ p. Taken self.old.ends p self.new.ends) }
    {
        if let Some(placed) = placed {
            self.ends = self.ends.holding(&placed);
        }
    }

    // Moves the ends of batch i outward until no good schedule leaves them.
    fn reach(&mut self, i: usize)
        requires { i < length (listed self.old.sought.batches) }
        ensures same { self.new.sought ≡ self.old.sought }
        ensures wider { Wider (length (listed self.old.sought.batches)) self.old.ends self.new.ends }
        ensures reached { Reached self.new.sought self.new.ends i }
    {
        let before = self.sought.earliest(i, self.ends.earliest[i]);
        self.hold(before);
        let after = self.sought.latest(i, self.ends.latest[i]);
        self.hold(after);
    }

    // Moves the ends of every batch so.
    fn stretch(&mut self)
        ensures same { self.new.sought ≡ self.old.sought }
        ensures reached { (k : ℕ) → k < length (listed self.new.sought.batches) → Reached self.new.sought self.new.ends k }
    {
        // a schedule is asked for by the number of its batch
        for i in 0..self.sought.batches.len() {
            self.reach(i);
        }
    }
}

impl Sought {
    // The first and the last period of each batch over the good schedules, if there is one.
    pub(crate) fn ends(self) -> Option<Ends>
        ensures { MatchOption result ((x : List ℕ) → Good self x → ⊥) (λ e. Hulled self e) }
    {
        let placed = self.any()?;
        let ends = Ends {
            earliest: placed,
            latest: placed,
        };
        let mut found = Found { sought: self, ends };
        found.stretch();
        Some(found.ends)
    }
}
