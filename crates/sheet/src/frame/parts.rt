// The windows, the rule and the cap of a sheet: a fill call judges each entry.
ghost use Rattle.sheet.specs.Reading.{RatedRead, ReloadRead, WindowsRead, LoadedSections};

use crate::frame::Frame;
use crate::frame::tables::Field;
use crate::job::Job;
use layers::{Pair, Weight, Weighted};
use rated::Rated;
use reload::Reload;
use windows::{Refusal, Windows};

impl Frame<'_> {
    // The capacities, due periods and rates; refused if one breaks its limits.
    fn rated(&self) -> Result<Rated, Refusal>
        ensures { RatedRead self.now.bytes.now result }
    {
        let size = self.head.size();
        let dues = self.column(Field::Due);
        let rates = self.rates();
        let mut rated = Rated::new();
        rated.fill(
            size,
            self.capacities(),
            &dues[..size.batches],
            &rates[..size.batches],
        )?;
        Ok(rated)
    }

    // The kinds and the charges from kind to kind; refused if one breaks its limits.
    fn reload(&self) -> Result<Reload, Refusal>
        ensures { ReloadRead self.now.bytes.now result }
    {
        let size = self.head.size();
        let square = self.head.charge_count();
        let kinds = self.column(Field::Kind);
        let charges = self.charge_table();
        let mut reload = Reload::new();
        reload.fill(
            size,
            self.head.kinds as usize,
            &kinds[..size.batches],
            &charges[..square],
        )?;
        Ok(reload)
    }

    // The windows; refused if one is bad.
    fn windows(&self) -> Result<Windows, Refusal>
        ensures { WindowsRead self.now.bytes.now result }
    {
        let size = self.head.size();
        let earliest = self.column(Field::Earliest);
        let latest = self.column(Field::Latest);
        let mut windows = Windows::new();
        windows.fill(size, &earliest[..size.batches], &latest[..size.batches])?;
        Ok(windows)
    }

    // What the sheet asks for: every entry is judged before any window.
    pub(crate) fn job(&self) -> Result<Job, Refusal>
        ensures { LoadedSections self.now.bytes.now result }
    {
        let rated = self.rated()?;
        let reload = self.reload()?;
        let windows = self.windows()?;
        let weight = Weight::new(self.head.weight as usize)?;
        Ok(Job {
            windows,
            rule: Pair::new(Weighted::new(weight, rated), reload),
            limit: self.head.limit,
        })
    }
}
