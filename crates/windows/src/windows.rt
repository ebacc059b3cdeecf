// A set of windows.
ghost use Rattle.std.specs.Prelude.{◌≡◌, ℕ, ◌<◌, ◌≤◌, length};
ghost use Rattle.windows.specs.WindowSets.{earliest_of, latest_of};

use crate::extent::Extent;
use crate::window::Window;

mod calls;
mod parts;

// One window for each of up to 32 batches, over up to 64 periods. No window is ever empty.
#[derive(Clone, Copy)]
pub struct Windows {
    extent: Extent,
    // no heap: an array, of which the batches that there are count
    each: [Window; 32],
    ghost long: { length each ≡ 32 },
    ghost starts: { (k : ℕ) → k < extent.batches → 1 ≤ earliest_of each k },
    ghost holds: { (k : ℕ) → k < extent.batches → earliest_of each k ≤ latest_of each k },
    ghost ends: { (k : ℕ) → k < extent.batches → latest_of each k ≤ extent.periods },
}
