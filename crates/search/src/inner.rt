// What a search holds beside its rule.
ghost use Rattle.std.specs.Prelude.{◌≡◌, ◌<◌, ◌≤◌, length};
ghost use Rattle.runs.specs.declared.phase.Phase.TheVariants.{Running};
ghost use Rattle.search.specs.Table.{stack, Roomy};

use crate::held::Held;
use runs::Phase;
use windows::Windows;

mod moves;

// The open parts are the first `count` of the table, the newest last. 193 hold all that can be open: each part has room for the
// splits that can still come of it.
#[derive(Drop)]
pub struct Inner {
    pub(crate) phase: Phase,
    pub(crate) cap: u64,
    parts: [Windows; 193], // no heap: an array, made by a repeat expression, with its count
    pub(crate) count: usize,
    pub(crate) plan: Option<Held>,
    ghost long: { length parts ≡ 193 },
    ghost few: { count ≤ 193 },
    ghost busy: { phase ≡ Running → 0 < count },
    ghost room: { ∥ Roomy (stack parts count) ∥₁ },
}
