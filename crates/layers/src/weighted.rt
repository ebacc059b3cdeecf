// A rule whose charges count several times.
ghost use Rattle.std.specs.Prelude.{◌≡◌};
ghost use Rattle.layers.specs.Layers.{weighted as weighted_of};
ghost use Rattle.layers.specs.Weighing.{weighted_lawful};

use crate::weight::Weight;
use rule::{MAX_CHARGE, Rule, admit};
use windows::{Refusal, Size, Windows};

// What the rule below allows, at its charge times the weight.
#[derive(Clone, Copy, Drop)]
pub struct Weighted<R> {
    weight: Weight,
    rule: R,
}

impl<R> Weighted<R> {
    // A rule with a weight.
    pub fn new(weight: Weight, rule: R) -> Weighted<R>
        ensures { result ≡ record { weight = weight; rule = rule } }
    {
        Weighted { weight, rule }
    }
}

impl<R: Rule> Rule for Weighted<R> {
    ghost meaning = { λ s. weighted_of s.weight.value (R.Rule.meaning s.rule) };

    ghost lawful = { λ s. weighted_lawful s.weight.value s.weight.some (R.Rule.meaning s.rule) (R.Rule.lawful s.rule) };

    fn fits(&self, size: Size) -> bool {
        self.rule.fits(size)
    }

    fn floor(&self, windows: &Windows) -> u64 {
        (self.weight.get() as u64 * self.rule.floor(windows)).min(MAX_CHARGE)
    }

    fn narrow(&self, windows: &mut Windows, limit: u64) -> Result<(), Refusal> {
        admit(self.fits(windows.size()), limit)?;
        self.rule.narrow(windows, limit / self.weight.get() as u64)
    }
}
