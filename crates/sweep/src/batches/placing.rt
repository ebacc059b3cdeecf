// Placing batches from the last period to the first.
ghost use Rattle.std.specs.Prelude.{◌≡◌, ℕ, ◌<◌, ◌≤◌, length, MatchBool, MatchOption, slice_index};
ghost use Rattle.sweep.specs.Charges.{earliest_at, Impossible};
ghost use Rattle.sweep.specs.Held.{listed, last_of};
ghost use Rattle.sweep.specs.Turns.{Roomy, Waiting, Next, LatestFirst, Best};

use crate::batches::Batches;
use line::{Batch, Waits};

impl Batches {
    // The batch that goes next of those that wait at a period.
    fn next<E: Waits + Copy>(&self, placed: &[u8; 32], period: u8) -> Option<usize>
        requires { Roomy E.row }
        ensures { MatchOption result ((k : ℕ) → k < length (listed self.now) → Waiting (listed self.now) placed.now period k → ⊥) (λ b. Next E.leads E.made (listed self.now) placed.now period b) }
    {
        // no heap: the line is an array, made by a repeat expression, with its count
        let mut line = [E::of(Batch::default(), 0); 32];
        let mut count = 0;
        for (k, batch) in self.each().iter().enumerate() {
            if placed[k] == 0 && period <= batch.latest {
                line[count] = E::of(*batch, k as u8);
                count += 1;
            }
        }
        let waiting = &line[..count];
        let front = line::front(waiting)?;
        Some(waiting[front].number() as usize)
    }

    // Whether some batch that is not placed may not go before a period.
    fn some_stranded(&self, placed: &[u8; 32], period: u8) -> bool
        ensures { MatchBool result ((k : ℕ) × (k < length (listed self.now)) × (slice_index placed.now k ≡ 0) × (period ≤ earliest_at (listed self.now) k)) ((k : ℕ) → k < length (listed self.now) → slice_index placed.now k ≡ 0 → earliest_at (listed self.now) k < period) }
    {
        self.each()
            .iter()
            .zip(placed)
            .any(|(batch, at)| *at == 0 && period <= batch.earliest)
    }

    // Fills each period, from the last to the first, with the batches that go next; nothing once a batch can't be placed.
    pub(super) fn sweep<E: Waits + Copy>(&self, capacities: &[u8; 64]) -> Option<[u8; 32]>
        requires roomy { Roomy E.row }
        requires order { LatestFirst E.leads E.made (listed self.now) }
        ensures { MatchOption result (Impossible (listed self.now) capacities.now (last_of self.now)) (λ p. Best E.leads E.made (listed self.now) capacities.now (last_of self.now) p) }
    {
        let mut placed = [0u8; 32];
        for period in (1..=self.last).rev() {
            for _ in 0..capacities[period as usize - 1] {
                // leaves the period, not the function
                let Some(next) = self.next::<E>(&placed, period) else {
                    break;
                };
                placed[next] = period;
            }
            if self.some_stranded(&placed, period) {
                return None;
            }
        }
        Some(placed)
    }
}
