// The calls on Reload.
ghost use Rattle.std.specs.Prelude.{◌≡◌, ◌*◌, true, [], ◌∷◌, length, take, if◌then◌else◌, Some, None};
ghost use Rattle.windows.specs.Sizes.{Sized};
ghost use Rattle.rule.specs.Narrowing.{Loaded};
ghost use Rattle.reload.specs.Loads.{reload_charge, drawn};
ghost use Rattle.reload.specs.Rules.{places_of, reload};
ghost use Rattle.reload.specs.Loading.{reload_of, reload_checks};
ghost use Rattle.reload.specs.Laws.{reload_lawful};
ghost use Rattle.reload.specs.Held.{charges_low};

use crate::reload::Reload;
use crate::schedule::{apart, some_wide};
use crate::table::{breaks_kinds, charge_between, some_above, some_own};
use rule::{MAX_CHARGE, Rule, admit, padded, some_outside};
use windows::{Extent, Refusal, Size, Window, Windows};

// Judges a fill by the checks in their order.
fn judge(size: Size, kinds_count: usize, kinds: &[u8], charges: &[u16]) -> Result<Extent, Refusal>
    ensures { Sized (reload_checks size.batches size.periods kinds_count kinds.now charges.now) size result }
{
    let extent = Extent::try_from(size)?;
    if breaks_kinds(kinds_count) {
        return Err(Refusal::Limit);
    }
    if kinds.len() != size.batches || charges.len() != kinds_count * kinds_count {
        return Err(Refusal::ListLength);
    }
    if some_outside(kinds, 1, kinds_count as u8)
        || some_above(charges, 10_000)
        || some_own(kinds_count as u8, charges)
    {
        return Err(Refusal::Entry);
    }
    Ok(extent)
}

impl Reload {
    // No batches, one period, and one kind.
    pub fn new() -> Reload
        ensures { reload_of result ≡ reload 0 1 1 [] (0 ∷ []) }
    {
        Reload {
            extent: Extent {
                batches: 0,
                periods: 1,
            },
            kinds_count: 1,
            kinds: [0; 32],
            charges: [0; 64],
        }
    }

    // Loads the kind of each batch, and the charge from each kind to each: those from kind 1 first.
    pub fn fill(
        &mut self,
        size: Size,
        kinds_count: usize,
        kinds: &[u8],
        charges: &[u16],
    ) -> Result<(), Refusal>
        ensures { Loaded reload_of (reload_checks size.batches size.periods kinds_count kinds.now charges.now) (reload size.batches size.periods kinds_count kinds.now charges.now) self.old self.new result }
    {
        let extent = judge(size, kinds_count, kinds, charges)?;
        *self = Reload {
            extent,
            kinds_count: kinds_count as u8,
            kinds: padded(kinds, 0),
            charges: padded(charges, 0),
        };
        Ok(())
    }
}

impl Reload {
    // The charge from a kind to a kind; 0 where the table has none.
    fn between(&self, before: u8, kind: u8) -> u16
        ensures { result ≡ reload_charge self.now.kinds_count (take (self.now.kinds_count * self.now.kinds_count) self.now.charges) before kind }
    {
        let kinds_count = self.kinds_count as usize;
        let charges = &self.charges[..kinds_count * kinds_count];
        charge_between(self.kinds_count, charges, before, kind)
    }

    // What a kind draws after the one before it; the first draws nothing.
    fn load(&self, before: Option<u8>, kind: u8) -> u64
        ensures { result ≡ drawn self.now.kinds_count (take (self.now.kinds_count * self.now.kinds_count) self.now.charges) before kind }
    {
        before.map_or(0, |before| self.between(before, kind) as u64)
    }

    // The charge of the schedule of windows of one period each.
    fn charge(&self, each: &[Window]) -> u64
        requires { length each.now ≡ self.now.extent.batches }
        ensures { result ≡ (reload_of self.now).charge self.now.extent.periods (places_of each.now) }
    {
        let mut total = 0;
        let mut before = None;
        let kinds = &self.kinds[..each.len()];
        // in order of period: a batch's period is found, and nothing is indexed by it
        for t in 1..=self.extent.periods {
            for (window, &kind) in each.iter().zip(kinds) {
                if window.earliest == t {
                    total += self.load(before, kind);
                    before = Some(kind);
                }
            }
        }
        total
    }

    // The charge of the schedule of windows of one period each, if it is allowed.
    fn allowed_charge(&self, each: &[Window]) -> Option<u64>
        requires { length each.now ≡ self.now.extent.batches }
        ensures { result ≡ (if (reload_of self.now).allows self.now.extent.periods (places_of each.now) then Some ((reload_of self.now).charge self.now.extent.periods (places_of each.now)) else None) }
    {
        apart(each, self.extent.periods).then(|| self.charge(each))
    }
}

impl Rule for Reload {
    ghost meaning = { reload_of };

    ghost lawful = { λ r. reload_lawful r.extent.batches r.extent.periods r.kinds_count _ _ r.extent.few r.extent.most (charges_low r) };

    // a line of each rule by itself: the trait asks for the method
    fn fits(&self, size: Size) -> bool {
        size == Size::from(self.extent)
    }

    fn floor(&self, windows: &Windows) -> u64 {
        if !self.fits(windows.size()) {
            return MAX_CHARGE;
        }
        if some_wide(windows.each()) {
            return 0;
        }
        self.allowed_charge(windows.each()).unwrap_or(0)
    }

    fn narrow(&self, windows: &mut Windows, limit: u64) -> Result<(), Refusal> {
        admit(self.fits(windows.size()), limit)?;
        if some_wide(windows.each()) {
            return Ok(());
        }
        match self.allowed_charge(windows.each()) {
            Some(charge) if charge <= limit => Ok(()),
            _ => Err(Refusal::NoSchedule),
        }
    }
}
