// The calls on Flat.
ghost use Rattle.std.specs.Prelude.{◌≡◌, [], ◌∷◌, length, take, MatchOption};
ghost use Rattle.windows.specs.Sizes.{Sized};
ghost use Rattle.windows.specs.Filling.{set_of};
ghost use Rattle.rule.specs.Narrowing.{Loaded, CutTo};
ghost use Rattle.flat.specs.Rules.{flat, least_waited};
ghost use Rattle.flat.specs.Loading.{flat_of, flat_checks};
ghost use Rattle.flat.specs.Ends.{Clips, NothingAllowed};
ghost use Rattle.flat.specs.Laws.{front_bounded, flat_lawful};

use crate::ends::Sought;
use crate::flat::Flat;
use crate::slots::Slots;
use line::Batch;
use rule::{MAX_CHARGE, Rule, admit, padded, some_outside};
use sweep::Batches;
use windows::{Extent, Refusal, Size, Windows};

// Judges a fill by the checks in their order.
fn judge(size: Size, capacities: &[u8], dues: &[u8]) -> Result<Extent, Refusal>
    ensures { Sized (flat_checks size.batches size.periods capacities.now dues.now) size result }
{
    let extent = Extent::try_from(size)?;
    if capacities.len() != size.periods || dues.len() != size.batches {
        return Err(Refusal::ListLength);
    }
    if some_outside(capacities, 0, 32) || some_outside(dues, 1, extent.periods) {
        return Err(Refusal::Entry);
    }
    Ok(extent)
}

impl Flat {
    // No batches, and one period of capacity 0.
    pub fn new() -> Flat
        ensures { flat_of result ≡ flat 0 1 (0 ∷ []) [] }
    {
        Flat {
            slots: Slots::new(),
            dues: [0; 32],
        }
    }

    // Loads the capacity of each period and the due period of each batch.
    pub fn fill(&mut self, size: Size, capacities: &[u8], dues: &[u8]) -> Result<(), Refusal>
        ensures { Loaded flat_of (flat_checks size.batches size.periods capacities.now dues.now) (flat size.batches size.periods capacities.now dues.now) self.old self.new result }
    {
        let extent = judge(size, capacities, dues)?;
        let slots = Slots {
            extent,
            capacities: padded(capacities, 0),
        };
        *self = Flat {
            slots,
            dues: padded(dues, 0),
        };
        Ok(())
    }
}

impl Flat {
    // The batches of the windows, each window ended by the due period; nothing if no schedule is allowed for want of fit or of
    // a period for some batch.
    fn batches(&self, windows: &Windows) -> Option<Batches>
        ensures { MatchOption result (NothingAllowed self.now windows.now) (λ b. Clips self.now windows.now b) }
    {
        let size = windows.size();
        if !self.fits(size) {
            return None;
        }
        let mut each = [Batch::default(); 32];
        // a loop of its own beside Rated's: where a batch may begin and what it is charged would both be parameters of one
        for (k, window) in windows.each().iter().enumerate() {
            let due = self.dues[k];
            each[k] = Batch {
                earliest: window.earliest,
                latest: window.latest.min(due),
                due,
                rate: 1,
            };
        }
        Batches::new(size.batches, size.periods as u8, each)
    }

    // The least that an allowed schedule waits, if there is one.
    fn least_waited(&self, windows: &Windows) -> Option<u64>
        ensures { result ≡ least_waited self.now.slots.extent.batches self.now.slots.extent.periods (take self.now.slots.extent.periods self.now.slots.capacities) (take self.now.slots.extent.batches self.now.dues) (set_of windows.now) }
    {
        let batches = self.batches(windows)?;
        let placed = batches.latest(&self.slots.capacities)?;
        Some(batches.waited(&placed))
    }

    // Cuts the windows to the hull of the allowed schedules up to the cap.
    pub(crate) fn cut(&self, windows: &mut Windows, limit: u64) -> Result<(), Refusal>
        ensures { CutTo ((flat_of self.now).cut (set_of windows.old) limit) windows.old windows.new result }
    {
        let batches = self.batches(windows).ok_or(Refusal::NoSchedule)?;
        let sought = Sought {
            batches,
            capacities: self.slots.capacities,
            limit,
        };
        let ends = sought.ends().ok_or(Refusal::NoSchedule)?;
        let size = windows.size();
        windows.fill(
            size,
            &ends.earliest[..size.batches],
            &ends.latest[..size.batches],
        )
    }
}

impl Rule for Flat {
    ghost meaning = { flat_of };

    ghost lawful = { λ f. flat_lawful f.slots.extent.batches f.slots.extent.periods (take f.slots.extent.periods f.slots.capacities) (take f.slots.extent.batches f.dues) f.slots.extent.few (front_bounded f.slots.extent.batches 32 64 f.dues f.dated f.slots.extent.few f.soon) };

    fn fits(&self, size: Size) -> bool {
        self.slots.fits(size)
    }

    fn floor(&self, windows: &Windows) -> u64 {
        self.least_waited(windows).unwrap_or(MAX_CHARGE)
    }

    fn narrow(&self, windows: &mut Windows, limit: u64) -> Result<(), Refusal> {
        admit(self.fits(windows.size()), limit)?;
        self.cut(windows, limit)
    }
}
