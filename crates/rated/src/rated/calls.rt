// The calls on Rated.
ghost use Rattle.std.specs.Prelude.{◌≡◌, [], ◌∷◌, length, take, MatchOption};
ghost use Rattle.std.specs.Option.{option_map};
ghost use Rattle.windows.specs.Filling.{set_of};
ghost use Rattle.windows.specs.Sizes.{Sized};
ghost use Rattle.rule.specs.Narrowing.{Loaded};
ghost use Rattle.rule.specs.Tables.{outside};
ghost use Rattle.flat.specs.Rules.{flat, or_max};
ghost use Rattle.flat.specs.Loading.{flat_of};
ghost use Rattle.flat.specs.Laws.{front_bounded};
ghost use Rattle.rated.specs.Rates.{rated, allowed_hull};
ghost use Rattle.rated.specs.Loading.{max_rate, rated_of, rated_checks};
ghost use Rattle.rated.specs.Measures.{Prices, NothingFits};
ghost use Rattle.rated.specs.Laws.{timely_bounded, rated_lawful};

use crate::measure::Forcing;
use crate::rated::Rated;
use crate::scan::End;
use flat::Flat;
use line::Batch;
use rule::{MAX_CHARGE, Rule, admit, padded, some_outside};
use sweep::Batches;
use windows::{Extent, Refusal, Size, Windows};

// The greatest rate, in microampere-hours a period.
const MAX_RATE: u32 = 10_000;

// Whether some rate is above the greatest.
fn some_dear(rates: &[u32]) -> bool
    ensures { result ≡ outside 0 max_rate rates.now }
{
    // a line of its own: a rate is no byte
    rates.iter().any(|&rate| rate > MAX_RATE)
}

// Judges a fill by the checks in their order.
fn judge(size: Size, capacities: &[u8], dues: &[u8], rates: &[u32]) -> Result<Extent, Refusal>
    ensures { Sized (rated_checks size.batches size.periods capacities.now dues.now rates.now) size result }
{
    let extent = Extent::try_from(size)?;
    if capacities.len() != size.periods
        || dues.len() != size.batches
        || rates.len() != size.batches
    {
        return Err(Refusal::ListLength);
    }
    if some_outside(capacities, 0, 32)
        || some_outside(dues, 1, extent.periods)
        || some_dear(rates)
    {
        return Err(Refusal::Entry);
    }
    Ok(extent)
}

impl Rated {
    // No batches, and one period of capacity 0.
    pub fn new() -> Rated
        ensures { rated_of result ≡ rated 0 1 (0 ∷ []) [] [] }
    {
        Rated {
            extent: Extent {
                batches: 0,
                periods: 1,
            },
            capacities: [0; 64],
            dues: [0; 32],
            rates: [0; 32],
        }
    }

    // Loads the capacity of each period, and the due period and the rate of each batch.
    pub fn fill(
        &mut self,
        size: Size,
        capacities: &[u8],
        dues: &[u8],
        rates: &[u32],
    ) -> Result<(), Refusal>
        ensures { Loaded rated_of (rated_checks size.batches size.periods capacities.now dues.now rates.now) (rated size.batches size.periods capacities.now dues.now rates.now) self.old self.new result }
    {
        let extent = judge(size, capacities, dues, rates)?;
        *self = Rated {
            extent,
            capacities: padded(capacities, 0),
            dues: padded(dues, 0),
            rates: padded(rates, 0),
        };
        Ok(())
    }
}

impl Rated {
    // The rule of the same capacities and due periods without rates. Its fill is never refused: the tables passed these checks.
    fn unrated(&self) -> Flat
        ensures { flat_of result ≡ flat self.now.extent.batches self.now.extent.periods (take self.now.extent.periods self.now.capacities) (take self.now.extent.batches self.now.dues) }
    {
        let size = Size::from(self.extent);
        let mut flat = Flat::new();
        let _ = flat.fill(
            size,
            &self.capacities[..size.periods],
            &self.dues[..size.batches],
        );
        flat
    }

    // The hull of the allowed schedules, whatever they cost.
    fn hull(&self, windows: &Windows) -> Option<Windows>
        ensures { option_map set_of result ≡ allowed_hull self.now.extent.batches self.now.extent.periods (take self.now.extent.periods self.now.capacities) (take self.now.extent.batches self.now.dues) (set_of windows.now) }
    {
        let mut hull = *windows;
        self.unrated().narrow(&mut hull, MAX_CHARGE).ok()?;
        Some(hull)
    }

    // The batches of the windows, each window from period 1 to the lower of its latest and its due period; nothing if no
    // schedule keeps to those for want of fit or of a period for some batch.
    fn batches(&self, windows: &Windows) -> Option<Batches>
        ensures { MatchOption result (NothingFits self.now windows.now) (λ b. Prices self.now windows.now b) }
    {
        let size = windows.size();
        if !self.fits(size) {
            return None;
        }
        let mut each = [Batch::default(); 32];
        // a loop of its own beside Flat's: where a batch may begin and what it is charged would both be parameters of one
        for (k, window) in windows.each().iter().enumerate() {
            let due = self.dues[k];
            each[k] = Batch {
                earliest: 1,
                latest: window.latest.min(due),
                due,
                rate: self.rates[k],
            };
        }
        Batches::new(size.batches, size.periods as u8, each)
    }

    // The least charge in the relaxed windows; nothing if no schedule in them keeps the capacities.
    fn least(&self, windows: &Windows) -> Option<u64>
        ensures { or_max result ≡ (rated_of self.now).floor (set_of windows.now) }
    {
        let batches = self.batches(windows)?;
        let placed = batches.cheapest_relaxed(&self.capacities)?;
        Some(batches.charge(&placed))
    }

    // The hull of the allowed schedules, each window cut to the affordable periods of its batch.
    fn cut(&self, windows: &Windows, limit: u64) -> Option<Windows>
        ensures { option_map set_of result ≡ (rated_of self.now).cut (set_of windows.now) limit }
    {
        let hull = self.hull(windows)?;
        let batches = self.batches(&hull)?;
        let mut forcing = Forcing::new(&batches, &self.capacities, limit);
        let earliest = forcing.outermost(End::Earliest, &hull)?;
        let latest = forcing.outermost(End::Latest, &hull)?;
        let size = hull.size();
        let mut cut = hull;
        cut.fill(size, &earliest[..size.batches], &latest[..size.batches])
            .ok()?;
        Some(cut)
    }
}

impl Rule for Rated {
    ghost meaning = { rated_of };

    ghost lawful = { λ r. rated_lawful r.extent.batches r.extent.periods (take r.extent.periods r.capacities) (take r.extent.batches r.dues) (take r.extent.batches r.rates) r.extent.few (timely_bounded r.extent.periods (take r.extent.batches r.dues) r.extent.most r.timely) (front_bounded r.extent.batches 32 1000000 r.rates r.priced r.extent.few r.cheap) };

    // a line of each rule by itself: the trait asks for the method
    fn fits(&self, size: Size) -> bool {
        size == Size::from(self.extent)
    }

    fn floor(&self, windows: &Windows) -> u64 {
        self.least(windows).unwrap_or(MAX_CHARGE)
    }

    fn narrow(&self, windows: &mut Windows, limit: u64) -> Result<(), Refusal> {
        admit(self.fits(windows.size()), limit)?;
        *windows = self.cut(windows, limit).ok_or(Refusal::NoSchedule)?;
        Ok(())
    }
}
