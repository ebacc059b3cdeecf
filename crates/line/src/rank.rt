// What batches are ranked by.
ghost use Rattle.std.specs.Prelude.{◌≡◌, ℕ, refl};
ghost use Rattle.std.specs.Ordering.{nat_cmp};
ghost use Rattle.line.specs.declared.batch.Batch.{Batch};

use crate::batch::Batch;

// A key that every batch has. Of two batches the one with the greater key is ahead.
pub trait Rank<K: Copy + Ord> {
    // the key of a batch
    ghost key: { Batch → K };

    // a key as a number
    ghost value: { K → ℕ };

    // The key of a batch.
    fn key(batch: Batch) -> K
        ensures { result ≡ key batch };

    // keys are in the order of their numbers
    ghost ordered: { (a b : K) → K.cmp a b ≡ nat_cmp (value a) (value b) };

    // two keys of one number are the same
    ghost exact: { (a b : K) → value a ≡ value b → a ≡ b };
}

// By the earliest period: the batches that have to go late are ahead.
#[derive(Clone, Copy, Debug)]
pub struct Earliest;

impl Rank<u8> for Earliest {
    ghost key = { λ b. b.earliest };

    ghost value = { λ k. k };

    ghost ordered = { λ a b. refl };

    ghost exact = { λ a b e. e };

    fn key(batch: Batch) -> u8 {
        batch.earliest
    }
}

// By the charge for a period: the batches that cost most to place early are ahead.
#[derive(Clone, Copy, Debug)]
pub struct Rate;

impl Rank<u32> for Rate {
    ghost key = { λ b. b.rate };

    ghost value = { λ k. k };

    ghost ordered = { λ a b. refl };

    ghost exact = { λ a b e. e };

    fn key(batch: Batch) -> u32 {
        batch.rate
    }
}
