//! What a rule is to the planner, whoever writes it.
#![tactic(auto)]

ghost use Rattle.std.specs.Prelude.{◌≡◌};
ghost use Rattle.windows.specs.Filling.{set_of};
ghost use Rattle.rule.specs.Meaning.{Meaning, Lawful};
ghost use Rattle.rule.specs.Narrowing.{Narrowed};

use windows::{Refusal, Size, Windows};

mod judging;
mod tables;

pub use judging::admit;
pub use tables::{padded, some_outside};

// The greatest charge and the greatest cap, in microampere-hours.
pub const MAX_CHARGE: u64 = 1_000_000_000_000;

// A rule says which schedules are allowed and what each costs. An implementation states that by `meaning` and shows the laws
// of every rule by `lawful`; no call alters the rule.
pub trait Rule {
    ghost meaning: { Self → Meaning };

    // Whether the rule fits windows of a size.
    fn fits(&self, size: Size) -> bool
        ensures { result ≡ (meaning self.now).fits size.batches size.periods };

    // A charge that no allowed schedule in the windows goes below.
    fn floor(&self, windows: &Windows) -> u64
        ensures { result ≡ (meaning self.now).floor (set_of windows.now) };

    // Replaces the windows by the cut under a cap, or refuses and leaves them.
    fn narrow(&self, windows: &mut Windows, limit: u64) -> Result<(), Refusal>
        ensures { Narrowed (meaning self.now) limit windows.old windows.new result };

    ghost lawful: { (s : Self) → Lawful (meaning s) };
}
