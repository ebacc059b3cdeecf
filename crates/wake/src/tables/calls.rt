// The calls that narrow the windows of two tables: the lengths of all tables are judged before any entry. Callers in C
// are to hand in each table by itself, so Flat and Rated have a call each.
ghost use Rattle.flat.specs.Rules.{flat};
ghost use Rattle.rated.specs.Rates.{rated};
ghost use Rattle.sheet.specs.Layout.{pairs};
ghost use Rattle.wake.specs.Exports.{flat_table_checks, rated_table_checks, TablesAnswered};

use crate::tables::Tables;
use crate::tables::writing::write_windows;
use windows::{Refusal, Size};

// Narrows the windows of two tables under Flat.
pub(crate) fn narrow_flat(
    size: Size,
    capacities: &[u8],
    dues: &[u8],
    earliest: &mut [u8],
    latest: &mut [u8],
    limit: u64,
) -> Result<(), Refusal>
    ensures { TablesAnswered (flat size.batches size.periods capacities.now dues.now) size.periods limit (flat_table_checks size.batches size.periods capacities.now dues.now earliest.old latest.old limit) earliest.old latest.old earliest.new latest.new result }
{
    let windows = Tables::new(size, earliest, latest, limit)?.by_flat(capacities, dues)?;
    write_windows(&windows, earliest, latest);
    Ok(())
}

// Narrows the windows of two tables under Rated.
pub(crate) fn narrow_rated(
    size: Size,
    capacities: &[u8],
    dues: &[u8],
    rates: &[u8],
    earliest: &mut [u8],
    latest: &mut [u8],
    limit: u64,
) -> Result<(), Refusal>
    ensures { TablesAnswered (rated size.batches size.periods capacities.now dues.now (pairs size.batches rates.now)) size.periods limit (rated_table_checks size.batches size.periods capacities.now dues.now rates.now earliest.old latest.old limit) earliest.old latest.old earliest.new latest.new result }
{
    let windows = Tables::new(size, earliest, latest, limit)?.by_rated(capacities, dues, rates)?;
    write_windows(&windows, earliest, latest);
    Ok(())
}
