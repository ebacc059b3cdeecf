// The rule of capacities alone.
ghost use Rattle.std.specs.Prelude.{◌≡◌, ℕ, ◌≤◌, length};

use windows::Extent;

mod calls;

// At most so many batches in each period; nothing is charged.
#[derive(Clone, Copy)]
pub struct Slots {
    pub(crate) extent: Extent,
    // no heap: an array, of which the periods that there are count
    pub(crate) capacities: [u8; 64],
    ghost long: { length capacities ≡ 64 },
}
