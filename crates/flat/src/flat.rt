// The rule of capacities and due periods.
ghost use Rattle.std.specs.Prelude.{◌≡◌, ℕ, ◌≤◌, length, slice_index};

use crate::slots::Slots;

mod calls;

// What Slots allows with no batch after its due period; each period that a batch waits before it is due costs one.
#[derive(Clone, Copy)]
pub struct Flat {
    pub(crate) slots: Slots,
    // no heap: an array, of which the batches that there are count
    pub(crate) dues: [u8; 32],
    ghost dated: { length dues ≡ 32 },
    ghost soon: { (k : ℕ) → slice_index dues k ≤ 64 },
}
