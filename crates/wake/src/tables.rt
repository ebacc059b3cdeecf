// Windows in two tables of bytes.
ghost use Rattle.std.specs.Prelude.{◌≡◌, false, length};
ghost use Rattle.windows.specs.Sizes.{out_of_size};

use windows::Size;

mod calls;
mod narrowing;
mod writing;

// Both ends of each window, in a table each, and the cap to narrow them under; the size and the lengths are judged.
#[derive(Clone, Copy)]
struct Tables<'a> {
    size: Size,
    earliest: &'a [u8],
    latest: &'a [u8],
    limit: u64,
    ghost sized: { out_of_size size.batches size.periods ≡ false },
    ghost starts: { length earliest.now ≡ size.batches },
    ghost ends: { length latest.now ≡ size.batches },
}
