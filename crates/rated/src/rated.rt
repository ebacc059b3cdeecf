// The rule of rates.
ghost use Rattle.std.specs.Prelude.{◌≡◌, ℕ, ◌≤◌, false, length, take, slice_index};
ghost use Rattle.rule.specs.Tables.{outside};

use windows::Extent;

mod calls;

// What Flat allows; each batch costs its own rate for each period that it waits before it is due. Rates up to a million keep
// every charge below the greatest.
// No heap: the tables are arrays, with the size beside them. Due periods and rates are two tables, since Flat takes the due
// periods as a list of their own.
#[derive(Clone, Copy)]
pub struct Rated {
    extent: Extent,
    capacities: [u8; 64],
    dues: [u8; 32],
    rates: [u32; 32],
    ghost long: { length capacities ≡ 64 },
    ghost dated: { length dues ≡ 32 },
    ghost priced: { length rates ≡ 32 },
    ghost roomy: { outside 0 32 (take extent.periods capacities) ≡ false },
    ghost timely: { outside 1 extent.periods (take extent.batches dues) ≡ false },
    ghost cheap: { (k : ℕ) → slice_index rates k ≤ 1000000 },
}
