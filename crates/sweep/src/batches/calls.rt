// What can be asked of batches.
ghost use Rattle.std.specs.Prelude.{◌≡◌, ℕ, ◌+◌, ◌-◌, ◌*◌, ◌^◌, ◌<◌, ◌≤◌, ◌↔◌, List, length, take, All, IsTrue, MatchOption};
ghost use Rattle.sweep.specs.Charges.{Fits, Impossible, Has, Cheapest, Forced, IsSound, Sound, charge, relaxed as relaxed_of};
ghost use Rattle.sweep.specs.Held.{listed, last_of, Holds, batch_asked};

use crate::batches::Batches;
use line::{Batch, ByEarliest, ByRate};

// Whether a batch is sound over the periods 1 to `periods`: its window is not empty, lies in them and ends by its due period.
fn is_sound(batch: &Batch, periods: u8) -> bool
    ensures { IsTrue result ↔ IsSound periods batch.now }
{
    1 <= batch.earliest
        && batch.earliest <= batch.latest
        && batch.latest <= periods
        && batch.latest <= batch.due
}

// Whether all batches of a list are sound over the periods 1 to `periods`.
fn all_sound(batches: &[Batch], periods: u8) -> bool
    ensures { IsTrue result ↔ All (IsSound periods) batches.now }
{
    batches.iter().all(|batch| is_sound(batch, periods))
}

impl Batches {
    // The first `count` batches of a table over the periods 1 to `periods`; nothing if there are too many of either, or a window
    // is empty, leaves the periods or ends after its batch is due.
    pub fn new(count: usize, periods: u8, each: [Batch; 32]) -> Option<Batches>
        ensures { MatchOption result (Sound count periods each → ⊥) (λ b. Holds count periods each b) }
    {
        if periods > 64 || !all_sound(each.get(..count)?, periods) {
            return None;
        }
        Some(Batches {
            count,
            last: periods,
            each,
        })
    }

    // How many batches there are.
    pub fn len(&self) -> usize
        ensures { result ≡ length (listed self.now) }
    {
        self.count
    }

    // The last period.
    pub fn last(&self) -> u8
        ensures { result ≡ last_of self.now }
    {
        self.last
    }

    // The batches in their order.
    pub fn each(&self) -> &[Batch]
        ensures all { result.now ≡ listed self.now }
        ensures few { length result.now ≤ 32 }
    {
        &self.each[..self.count]
    }

    // A batch, counted from 0.
    pub fn batch(&self, batch: usize) -> Option<Batch>
        ensures { result ≡ batch_asked (listed self.now) batch }
    {
        self.each().get(batch).copied()
    }

    // The schedule that waits least; nothing if none fits the capacities.
    pub fn latest(&self, capacities: &[u8; 64]) -> Option<[u8; 32]>
        ensures { MatchOption result (Impossible (listed self.now) capacities.now (last_of self.now)) (λ p. Cheapest (λ _. 1) (listed self.now) capacities.now (last_of self.now) p) }
    {
        self.sweep::<ByEarliest>(capacities)
    }

    // The schedule that waits least of those with this batch, counted from 0, in this period; nothing if none fits.
    pub fn latest_with(&self, capacities: &[u8; 64], batch: usize, period: u8) -> Option<[u8; 32]>
        ensures { MatchOption result ((x : List ℕ) → Fits (listed self.now) capacities.now (last_of self.now) x → Has batch period x → ⊥) (λ p. Forced (λ _. 1) (listed self.now) capacities.now (last_of self.now) batch period p) }
    {
        self.pinned(batch, period)?.latest(capacities)
    }

    // The schedule with the lowest charge by the rates, if each batch may go as early as period 1; nothing if none fits.
    pub fn cheapest_relaxed(&self, capacities: &[u8; 64]) -> Option<[u8; 32]>
        ensures { MatchOption result (Impossible (relaxed_of (listed self.now)) capacities.now (last_of self.now)) (λ p. Cheapest (λ b. b.rate) (relaxed_of (listed self.now)) capacities.now (last_of self.now) p) }
    {
        self.relaxed().sweep::<ByRate>(capacities)
    }

    // The periods that the batches wait before they are due, in all.
    pub fn waited(&self, placed: &[u8; 32]) -> u64
        ensures { result ≡ charge (λ _. 1) (listed self.now) (take (length (listed self.now)) placed.now) }
    {
        self.each()
            .iter()
            .zip(placed)
            .map(|(batch, at)| u64::from(batch.wait(*at)))
            .sum()
    }

    // The charge of a schedule by the rates.
    pub fn charge(&self, placed: &[u8; 32]) -> u64
        ensures exact { result ≡ charge (λ b. b.rate) (listed self.now) (take (length (listed self.now)) placed.now) }
        ensures small { result < 2 ^ 45 }
    {
        // a chain of its own beside what waits: one for both would ask that it may call what it is handed
        self.each()
            .iter()
            .zip(placed)
            .map(|(batch, at)| batch.charge(*at))
            .sum()
    }
}
