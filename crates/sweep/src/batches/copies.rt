// Copies of batches with other windows.
ghost use Rattle.std.specs.Prelude.{◌≡◌, MatchOption};
ghost use Rattle.std.specs.List.{remove};
ghost use Rattle.sweep.specs.Charges.{InWindow, pinned as pinned_at, relaxed as relaxed_of};
ghost use Rattle.sweep.specs.Held.{listed, last_of};

use crate::batches::Batches;
use line::Batch;

impl Batches {
    // The batches with the window of one of them, counted from 0, narrowed to one period of it; nothing if there is no such batch
    // or its window lacks the period.
    pub(super) fn pinned(&self, batch: usize, period: u8) -> Option<Batches>
        ensures { MatchOption result (InWindow (listed self.now) batch period → ⊥) (λ b. (listed b ≡ pinned_at (listed self.now) batch period) × (last_of b ≡ last_of self.now) × InWindow (listed self.now) batch period) }
    {
        let window = self.batch(batch)?;
        if period < window.earliest || window.latest < period {
            return None;
        }
        let mut held = *self;
        held.each[batch] = Batch {
            earliest: period,
            latest: period,
            ..window
        };
        Some(held)
    }

    // The batches with every window opened to period 1.
    pub(super) fn relaxed(&self) -> Batches
        ensures { (listed result ≡ relaxed_of (listed self.now)) × (last_of result ≡ last_of self.now) }
    {
        let mut each = self.each;
        // by index: a map of the array would go through all of its places
        for (k, old) in self.each().iter().enumerate() {
            each[k] = Batch {
                earliest: 1,
                ..*old
            };
        }
        Batches {
            count: self.count,
            last: self.last,
            each,
        }
    }

    // The batches without one of them, counted from 0; all of them if there is no such batch.
    pub fn without(&self, batch: usize) -> Batches
        ensures { (listed result ≡ remove (listed self.now) batch) × (last_of result ≡ last_of self.now) }
    {
        if batch >= self.count {
            return *self;
        }
        let mut left = *self;
        left.each.copy_within(batch + 1..self.count, batch);
        left.count -= 1;
        left
    }
}
