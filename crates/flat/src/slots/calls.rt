// The calls on Slots.
ghost use Rattle.std.specs.Prelude.{◌≡◌, [], ◌∷◌, take};
ghost use Rattle.windows.specs.Sizes.{Sized};
ghost use Rattle.rule.specs.Narrowing.{Loaded};
ghost use Rattle.flat.specs.Rules.{slots};
ghost use Rattle.flat.specs.Loading.{slots_of, slots_checks};
ghost use Rattle.flat.specs.Laws.{slots_lawful};

use crate::flat::Flat;
use crate::slots::Slots;
use rule::{MAX_CHARGE, Rule, admit, padded, some_outside};
use windows::{Extent, Refusal, Size, Windows};

// Judges a fill by the checks in their order.
fn judge(size: Size, capacities: &[u8]) -> Result<Extent, Refusal>
    ensures { Sized (slots_checks size.batches size.periods capacities.now) size result }
{
    let extent = Extent::try_from(size)?;
    if capacities.len() != size.periods {
        return Err(Refusal::ListLength);
    }
    if some_outside(capacities, 0, 32) {
        return Err(Refusal::Entry);
    }
    Ok(extent)
}

impl Slots {
    // No batches, and one period of capacity 0.
    pub fn new() -> Slots
        ensures means { slots_of result ≡ slots 0 1 (0 ∷ []) }
        ensures none { result.extent.batches ≡ 0 }
        ensures one { result.extent.periods ≡ 1 }
        ensures room { take result.extent.periods result.capacities ≡ 0 ∷ [] }
    {
        Slots {
            extent: Extent {
                batches: 0,
                periods: 1,
            },
            capacities: [0; 64],
        }
    }

    // Loads the capacity of each period.
    pub fn fill(&mut self, size: Size, capacities: &[u8]) -> Result<(), Refusal>
        ensures { Loaded slots_of (slots_checks size.batches size.periods capacities.now) (slots size.batches size.periods capacities.now) self.old self.new result }
    {
        let extent = judge(size, capacities)?;
        *self = Slots {
            extent,
            capacities: padded(capacities, 0),
        };
        Ok(())
    }
}

impl Rule for Slots {
    ghost meaning = { slots_of };

    ghost lawful = { λ s. slots_lawful s.extent.batches s.extent.periods (take s.extent.periods s.capacities) };

    // a line of each rule by itself: the trait asks for the method
    fn fits(&self, size: Size) -> bool {
        size == Size::from(self.extent)
    }

    fn floor(&self, windows: &Windows) -> u64 {
        if self.fits(windows.size()) {
            0
        } else {
            MAX_CHARGE
        }
    }

    fn narrow(&self, windows: &mut Windows, limit: u64) -> Result<(), Refusal> {
        admit(self.fits(windows.size()), limit)?;
        let never_due = Flat {
            slots: *self,
            dues: [64; 32],
        };
        never_due.cut(windows, MAX_CHARGE)
    }
}
