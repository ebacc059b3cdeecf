// What a narrowing is judged by before its cut.
ghost use Rattle.windows.specs.Refusals.{struck, Judged};
ghost use Rattle.rule.specs.Narrowing.{first_checks};

use crate::MAX_CHARGE;
use windows::Refusal;

// Refuses windows that a rule doesn't fit, and a cap above the greatest charge.
pub fn admit(fits: bool, limit: u64) -> Result<(), Refusal>
    ensures { Judged (struck (first_checks fits limit)) result }
{
    if !fits {
        return Err(Refusal::Unfit);
    }
    if limit > MAX_CHARGE {
        return Err(Refusal::CapTooHigh);
    }
    Ok(())
}
