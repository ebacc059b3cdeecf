// The one call from a sheet to its listing.
ghost use Rattle.std.specs.Prelude.{◌≡◌, ◌≤◌, length};
ghost use Rattle.report.specs.Texts.{Reported};
ghost use Rattle.listing.specs.Running.{result_text};
ghost use Rattle.listing.specs.Listing.{listing_text, Truthful, Told};

use crate::running::search_for;
use report::{Outcome, write_report};
use sheet::{Job, load};
use windows::Refusal;

// What the search of a sheet comes to; refused if the sheet is.
fn outcome_of(sheet: &[u8]) -> Result<Outcome, Refusal>
    ensures { Told sheet.now (result_text result) }
{
    let Job {
        windows,
        rule,
        limit,
    } = load(sheet)?;
    search_for(rule, &windows, limit)
}

// Writes the listing of a sheet over the start of the host's memory, and answers its length. Refused by 14, with nothing
// written, if the memory is shorter than the text; 320 bytes are never too short.
pub fn list(sheet: &[u8], memory: &mut [u8]) -> Result<usize, Refusal>
    ensures text { Reported (listing_text sheet.now) memory.old memory.new result }
    ensures short { length (listing_text sheet.now) ≤ 320 }
    ensures truthful { Truthful sheet.now (listing_text sheet.now) }
{
    let outcome = outcome_of(sheet).unwrap_or_else(Outcome::Refused);
    write_report(&outcome, memory)
}
