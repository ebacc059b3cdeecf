// The windows of two tables, narrowed by a rule.
ghost use Rattle.std.specs.Prelude.{◌≡◌, ℕ, ◌≤◌, true, take, MatchResult};
ghost use Rattle.windows.specs.Refusals.{number, struck};
ghost use Rattle.flat.specs.Rules.{flat};
ghost use Rattle.rated.specs.Rates.{rated};
ghost use Rattle.sheet.specs.Layout.{pairs};
ghost use Rattle.wake.specs.Exports.{size_checks, window_checks, flat_table_checks, rated_table_checks, WindowsNarrowed};

use crate::tables::Tables;
use flat::Flat;
use rated::Rated;
use rule::Rule;
use sheet::number_at;
use std::array;
use windows::{Refusal, Size, Windows};

impl<'a> Tables<'a> {
    // The tables of a caller; refused if a count breaks its limits or a table has another length.
    pub(super) fn new(
        size: Size,
        earliest: &'a [u8],
        latest: &'a [u8],
        limit: u64,
    ) -> Result<Tables<'a>, Refusal>
        ensures { MatchResult result
            (λ tables. (tables.size ≡ size) × (tables.earliest.now ≡ earliest.now) × (tables.latest.now ≡ latest.now) × (tables.limit ≡ limit))
            (λ refusal. struck (size_checks size.batches size.periods earliest.now latest.now) ≡ number refusal) }
    {
        if size.breaks_limits() {
            return Err(Refusal::Limit);
        }
        if earliest.len() != size.batches || latest.len() != size.batches {
            return Err(Refusal::ListLength);
        }
        Ok(Tables {
            size,
            earliest,
            latest,
            limit,
        })
    }

    // The windows as a rule that fits them narrows them.
    fn narrowed<R: Rule>(&self, rule: &R) -> Result<Windows, Refusal>
        requires { (R.Rule.meaning rule.now).fits self.now.size.batches self.now.size.periods ≡ true }
        ensures { let m = R.Rule.meaning rule.now in let t = self.now in
            WindowsNarrowed m t.size.periods t.earliest.now t.latest.now t.limit (window_checks m t.size.periods t.earliest.now t.latest.now t.limit) result }
    {
        let mut windows = Windows::new();
        windows.fill(self.size, self.earliest, self.latest)?;
        rule.narrow(&mut windows, self.limit)?;
        Ok(windows)
    }

    // The windows as Flat narrows them.
    pub(super) fn by_flat(&self, capacities: &[u8], dues: &[u8]) -> Result<Windows, Refusal>
        ensures { let t = self.now in
            WindowsNarrowed (flat t.size.batches t.size.periods capacities.now dues.now) t.size.periods t.earliest.now t.latest.now t.limit (flat_table_checks t.size.batches t.size.periods capacities.now dues.now t.earliest.now t.latest.now t.limit) result }
    {
        let mut rule = Flat::new();
        rule.fill(self.size, capacities, dues)?;
        self.narrowed(&rule)
    }

    // The windows as Rated narrows them, with two bytes for each rate.
    pub(super) fn by_rated(
        &self,
        capacities: &[u8],
        dues: &[u8],
        rates: &[u8],
    ) -> Result<Windows, Refusal>
        ensures { let t = self.now in
            WindowsNarrowed (rated t.size.batches t.size.periods capacities.now dues.now (pairs t.size.batches rates.now)) t.size.periods t.earliest.now t.latest.now t.limit (rated_table_checks t.size.batches t.size.periods capacities.now dues.now rates.now t.earliest.now t.latest.now t.limit) result }
    {
        let batches = self.size.batches;
        if rates.len() != 2 * batches {
            return Err(Refusal::ListLength);
        }
        let rates = rate_table(rates);
        let mut rule = Rated::new();
        rule.fill(self.size, capacities, dues, &rates[..batches])?;
        self.narrowed(&rule)
    }
}

// Rates from two bytes each. No heap: there is room for the most batches that there may be, and the front counts.
fn rate_table(bytes: &[u8]) -> [u32; 32]
    ensures { (n : ℕ) → n ≤ 32 → take n result ≡ pairs n bytes.now }
{
    array::from_fn(|k| number_at(bytes, 2 * k) as u32)
}
