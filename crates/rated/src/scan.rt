// The outermost periods of windows into which batches can be forced.
ghost use Rattle.std.specs.Prelude.{◌≡◌, ℕ, ◌+◌, ◌<◌, ◌≤◌, length, MatchOption, slice_index};
ghost use Rattle.windows.specs.Filling.{set_of};
ghost use Rattle.rated.specs.Ends.{inward, Outermost};
ghost use Rattle.rated.specs.Measures.{SomeUnaffordable};

use crate::measure::Forcing;
use windows::{Window, Windows};

// The two ends of a window.
#[derive(Clone, Copy)]
pub(crate) enum End {
    Earliest,
    Latest,
}

impl End {
    // The period so many steps inward from this end of a window.
    fn inward(self, window: Window, steps: u8) -> u8
        requires { window.earliest + steps ≤ window.latest }
        ensures { result ≡ inward self window.earliest window.latest steps }
    {
        match self {
            End::Earliest => window.earliest + steps,
            End::Latest => window.latest - steps,
        }
    }
}

impl Forcing<'_> {
    // The outermost period of each window, from this end, into which its batch can be forced up to the cap; nothing if a window
    // has none.
    pub(crate) fn outermost(&mut self, end: End, windows: &Windows) -> Option<[u8; 32]>
        ensures back { self.new ≡ self.old }
        ensures found { MatchOption result (SomeUnaffordable self.old (set_of windows.now).each) (λ p. (length p ≡ 32) × ((k : ℕ) → k < length (set_of windows.now).each → Outermost end self.old (set_of windows.now).each k (slice_index p k))) }
    {
        let mut found = [0; 32];
        'batches: for (batch, &window) in windows.each().iter().enumerate() {
            // a count of steps serves both ends, and the periods of a range would run from one
            for steps in 0..=window.latest - window.earliest {
                let period = end.inward(window, steps);
                if self.affords(batch, period) {
                    found[batch] = period;
                    continue 'batches;
                }
            }
            return None;
        }
        Some(found)
    }
}
