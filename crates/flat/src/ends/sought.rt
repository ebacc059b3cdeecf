// The schedules that a cut looks for.
ghost use Rattle.std.specs.Prelude.{◌≡◌, ℕ, ◌<◌, ◌≤◌, List, length, MatchOption, nat_le, slice_index};

use sweep::Batches;

// A good schedule places the batches within the capacities, with a charge up to the cap.
#[derive(Clone, Copy)]
pub struct Sought {
    pub(crate) batches: Batches,
    pub(crate) capacities: [u8; 64],
    pub(crate) limit: u64,
}

impl Sought {
    ghost use Rattle.sweep.specs.Charges.{Has, charge};
    ghost use Rattle.sweep.specs.Held.{listed, last_of};
    ghost use Rattle.flat.specs.Ends.{Good, placed_in, Earliest, Latest};

    // Whether the charge of a schedule is up to the cap.
    fn is_cheap(&self, placed: &[u8; 32]) -> bool
        ensures { result ≡ nat_le (charge (λ _. 1) (listed self.now.batches) (placed_in self.now placed.now)) self.now.limit }
    {
        self.batches.waited(placed) <= self.limit
    }

    // A good schedule, if there is one.
    pub(crate) fn any(&self) -> Option<[u8; 32]>
        ensures { MatchOption result ((x : List ℕ) → Good self.now x → ⊥) (λ p. Good self.now (placed_in self.now p)) }
    {
        self.batches
            .latest(&self.capacities)
            .filter(|placed| self.is_cheap(placed))
    }

    // A good schedule that has batch i in period v, if there is one.
    fn any_with(&self, i: usize, v: u8) -> Option<[u8; 32]>
        ensures { MatchOption result ((x : List ℕ) → Good self.now x → Has i v x → ⊥) (λ p. Good self.now (placed_in self.now p) × Has i v (placed_in self.now p)) }
    {
        self.batches
            .latest_with(&self.capacities, i, v)
            .filter(|placed| self.is_cheap(placed))
    }

    // A good schedule that has batch i as early as any does, if one has it before its earliest period found.
    pub(crate) fn earliest(&self, i: usize, found: u8) -> Option<[u8; 32]>
        requires { i < length (listed self.now.batches) }
        ensures { MatchOption result ((x : List ℕ) → Good self.now x → found ≤ slice_index x i) (λ p. Earliest self.now i (placed_in self.now p)) }
    {
        (1..found).find_map(|v| self.any_with(i, v))
    }

    // A good schedule that has batch i as late as any does, if one has it after its latest period found.
    pub(crate) fn latest(&self, i: usize, found: u8) -> Option<[u8; 32]>
        requires one { i < length (listed self.now.batches) }
        requires inside { found ≤ last_of self.now.batches }
        ensures { MatchOption result ((x : List ℕ) → Good self.now x → slice_index x i ≤ found) (λ p. Latest self.now i (placed_in self.now p)) }
    {
        (found + 1..=self.batches.last())
            .rev()
            .find_map(|v| self.any_with(i, v))
    }
}
