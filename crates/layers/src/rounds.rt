// The rounds of a pair.
ghost use Rattle.std.specs.Prelude.{◌≡◌, ◌≤◌, true, length, IfSome};
ghost use Rattle.std.specs.Option.{option_map};
ghost use Rattle.windows.specs.Filling.{set_of};
ghost use Rattle.rule.specs.Meaning.{max_charge};
ghost use Rattle.rule.specs.Narrowing.{fitting};
ghost use Rattle.layers.specs.Layers.{slack as slack_of, less, round as round_of, pair as pair_of};

use rule::Rule;
use windows::{Window, Windows};

// By how many periods the windows are longer than one each.
fn slack(windows: &[Window]) -> usize
    requires { length windows.now ≤ 32 }
    ensures { result ≡ slack_of windows.now }
{
    windows
        .iter()
        .map(|window| window.latest.saturating_sub(window.earliest) as usize)
        .sum()
}

// Windows that two sides fit, to be narrowed by both under a cap.
#[derive(Drop)]
pub(crate) struct Narrowing<'a, L: Rule, R: Rule> {
    pub(crate) left: &'a L,
    pub(crate) right: &'a R,
    pub(crate) windows: Windows,
    pub(crate) limit: u64,
    ghost fits_left: { fitting (L.Rule.meaning left.now) (set_of windows) ≡ true },
    ghost fits_right: { fitting (R.Rule.meaning right.now) (set_of windows) ≡ true },
    ghost low: { limit ≤ max_charge },
}

impl<'a, L: Rule, R: Rule> Narrowing<'a, L, R> {
    // Narrows by the left side, under the cap less a floor of the right side, and turns the sides.
    fn turn(&self, floor: u64) -> Option<Narrowing<'a, R, L>>
        ensures windows { option_map (λ n. set_of n.windows) result ≡ less (L.Rule.meaning self.now.left.now) self.now.limit floor (set_of self.now.windows) }
        ensures turned { IfSome result (λ n. (n.left ≡ self.now.right) × (n.right ≡ self.now.left) × (n.limit ≡ self.now.limit)) }
    {
        let limit = self.limit.checked_sub(floor)?;
        let mut windows = self.windows;
        self.left.narrow(&mut windows, limit).ok()?;
        Some(Narrowing {
            left: self.right,
            right: self.left,
            windows,
            limit: self.limit,
        })
    }

    // One round: the left side, then the right side, each under the cap less the other's floor of the windows as they then are.
    fn round(&self) -> Option<Narrowing<'a, L, R>>
        ensures windows { option_map (λ n. set_of n.windows) result ≡ round_of (L.Rule.meaning self.now.left.now) (R.Rule.meaning self.now.right.now) self.now.limit (set_of self.now.windows) }
        ensures same { IfSome result (λ n. (n.left ≡ self.now.left) × (n.right ≡ self.now.right) × (n.limit ≡ self.now.limit)) }
    {
        let middle = self.turn(self.right.floor(&self.windows))?;
        middle.turn(middle.right.floor(&middle.windows))
    }

    // Rounds up to the first that changes nothing.
    pub(crate) fn cut(self) -> Option<Windows>
        ensures { option_map set_of result ≡ (pair_of (L.Rule.meaning self.entry.left.now) (R.Rule.meaning self.entry.right.now)).cut (set_of self.entry.windows) self.entry.limit }
    {
        let mut before = self;
        // to a fixed point: nothing is counted
        loop {
            let after = before.round()?;
            if slack(after.windows.each()) == slack(before.windows.each()) {
                return Some(after.windows);
            }
            before = after;
        }
    }
}
