// The rule of loads that follow each other.
ghost use Rattle.std.specs.Prelude.{◌≡◌, ℕ, ◌<◌, ◌≤◌, length, slice_index};

use windows::Extent;

mod calls;

// No two batches in one period; to follow a batch of one kind by one of another costs what the table of charges says, row by
// row, one row for each kind that goes before.
#[derive(Clone, Copy)]
pub struct Reload {
    extent: Extent,
    kinds_count: u8,
    // no heap: arrays, of which the batches that there are count, and a row of each kind
    kinds: [u8; 32],
    charges: [u16; 64],
    ghost long: { length kinds ≡ 32 },
    ghost square: { length charges ≡ 64 },
    ghost eight: { kinds_count ≤ 8 },
    ghost named: { (k : ℕ) → k < extent.batches → 1 ≤ slice_index kinds k },
    ghost known: { (k : ℕ) → k < extent.batches → slice_index kinds k ≤ kinds_count },
    ghost low: { (k : ℕ) → slice_index charges k ≤ 10000 },
}
