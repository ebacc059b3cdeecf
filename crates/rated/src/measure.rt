// The least charge with one batch forced into a period.
ghost use Rattle.std.specs.Prelude.{◌≡◌, ◌+◌, ◌-◌, ◌*◌, ◌^◌, ◌<◌, ◌≤◌, Decides, MatchOption, slice_index, slice_set};

use line::Batch;
use sweep::Batches;

// Holds a capacity one lower while it lives.
struct Lowered<'a> {
    capacities: &'a mut [u8; 64],
    slot: usize,
}

impl<'a> Lowered<'a> {
    // Lowers the capacity at a slot that has room.
    fn new(capacities: &'a mut [u8; 64], slot: usize) -> Lowered<'a>
        requires inside { slot < 64 }
        requires room { 1 ≤ slice_index capacities.old slot }
        ensures same_table { result.capacities.ghost_name ≡ capacities.entry.ghost_name }
        ensures same_slot { result.slot ≡ slot }
        ensures lowered { result.capacities.now ≡ slice_set capacities.old slot (slice_index capacities.old slot - 1) }
    {
        capacities[slot] -= 1;
        Lowered { capacities, slot }
    }
}

impl Drop for Lowered<'_> {
    fn drop(self)
        requires { (self.slot < 64) × (slice_index self.capacities.now self.slot < 255) }
        ensures { self.exit.0.now ≡ slice_set self.entry.capacities.now self.entry.slot (slice_index self.entry.capacities.now self.entry.slot + 1) }
    {
        self.capacities[self.slot] += 1;
        let Lowered {
            capacities: _,
            slot: _,
        } = self;
    }
}

// Batches, with the capacities and the cap under which one of them at a time is forced into a period. Batches are counted from 0.
// A capacity is lowered for a while and put back, and each method says that nothing has changed.
#[derive(Drop)]
pub(crate) struct Forcing<'a> {
    batches: &'a Batches,
    capacities: [u8; 64],
    limit: u64,
}

impl<'a> Forcing<'a> {
    ghost use Rattle.rated.specs.Measures.{Forces, MayGo, Unplaceable, LeastWith, Affords};

    // Of batches under a rule's capacities.
    pub(crate) fn new(batches: &'a Batches, capacities: &[u8; 64], limit: u64) -> Forcing<'a>
        ensures { Forces result batches.now capacities.now limit }
    {
        Forcing {
            batches,
            capacities: *capacities,
            limit,
        }
    }

    // The batch, if it may go into the period with its window opened to period 1.
    fn may_go(&self, batch: usize, period: u8) -> Option<Batch>
        ensures { MatchOption result (Unplaceable self.now batch period) (λ o. MayGo self.now batch period o) }
    {
        let own = self.batches.batch(batch)?;
        (1 <= period && period <= own.latest).then_some(own)
    }

    // The least charge with the batch in the period, if each batch may go as early as period 1; nothing if no schedule has it
    // there. The others are placed with one place less in that period, which is back when this returns.
    fn least_with(&mut self, batch: usize, period: u8) -> Option<u64>
        ensures back { self.new ≡ self.old }
        ensures least { MatchOption result (Unplaceable self.old batch period) (λ a. LeastWith self.old batch period a) }
    {
        let own = self.may_go(batch, period)?;
        let slot = period as usize - 1;
        let room = self.capacities[slot];
        if room == 0 {
            return None;
        }
        let others = self.batches.without(batch);
        let lowered = Lowered::new(&mut self.capacities, slot);
        let placed = others.cheapest_relaxed(lowered.capacities)?;
        Some(others.charge(&placed) + own.charge(period))
    }

    // Whether the batch can be forced into the period up to the cap.
    pub(crate) fn affords(&mut self, batch: usize, period: u8) -> bool
        ensures back { self.new ≡ self.old }
        ensures told { Decides result (Affords self.old batch period) }
    {
        let limit = self.limit;
        self.least_with(batch, period)
            .is_some_and(|charge| charge <= limit)
    }
}
