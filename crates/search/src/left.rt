// What a step leaves of a part.
ghost use Rattle.search.specs.Left.{LeftOf};

use rule::Rule;
use windows::Windows;

#[derive(Clone, Copy)]
pub(crate) enum Left {
    Plan(u64), // one schedule, of this charge
    Halves(Windows), // two halves, of which this is the later
}

// Narrows a part in its place under a limit, if there is one, and splits it there. Nothing is left of a part that is refused.
pub(crate) fn left_of<R: Rule>(rule: &R, part: &mut Windows, limit: Option<u64>) -> Option<Left>
    ensures { LeftOf (R.Rule.meaning rule.now) limit part.old part.new result }
{
    let limit = limit?;
    rule.narrow(part, limit).ok()?;
    if let Some(later) = part.split() {
        return Some(Left::Halves(later));
    }
    rule.narrow(part, limit).ok()?; // one schedule is asked once more
    Some(Left::Plan(rule.floor(part)))
}
