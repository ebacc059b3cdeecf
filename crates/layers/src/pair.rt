// Two rules at once.
ghost use Rattle.std.specs.Prelude.{◌≡◌};
ghost use Rattle.layers.specs.Layers.{pair as pair_of};
ghost use Rattle.layers.specs.Pairing.{pair_lawful};

use crate::rounds::Narrowing;
use rule::{MAX_CHARGE, Rule, admit};
use windows::{Refusal, Size, Windows};

// What both sides allow, at the sum of their charges.
#[derive(Clone, Copy, Drop)]
pub struct Pair<L, R> {
    left: L,
    right: R,
}

impl<L, R> Pair<L, R> {
    // The pair of two rules.
    pub fn new(left: L, right: R) -> Pair<L, R>
        ensures { result ≡ record { left = left; right = right } }
    {
        Pair { left, right }
    }
}

impl<L: Rule, R: Rule> Rule for Pair<L, R> {
    ghost meaning = { λ p. pair_of (L.Rule.meaning p.left) (R.Rule.meaning p.right) };

    ghost lawful = { λ p. pair_lawful (L.Rule.meaning p.left) (R.Rule.meaning p.right) (L.Rule.lawful p.left) (R.Rule.lawful p.right) };

    fn fits(&self, size: Size) -> bool {
        self.left.fits(size) && self.right.fits(size)
    }

    fn floor(&self, windows: &Windows) -> u64 {
        (self.left.floor(windows) + self.right.floor(windows)).min(MAX_CHARGE)
    }

    fn narrow(&self, windows: &mut Windows, limit: u64) -> Result<(), Refusal> {
        admit(self.fits(windows.size()), limit)?;
        let narrowing = Narrowing {
            left: &self.left,
            right: &self.right,
            windows: *windows,
            limit,
        };
        *windows = narrowing.cut().ok_or(Refusal::NoSchedule)?;
        Ok(())
    }
}
