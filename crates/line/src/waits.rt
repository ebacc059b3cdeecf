// What an order of waiting is.
ghost use Rattle.std.specs.Prelude.{◌≡◌, ℕ, Bool, true, false};
ghost use Rattle.line.specs.declared.batch.Batch.{Batch};

use crate::batch::Batch;

// An element of a waiting line. It stands for a batch by its number, and is ranked by its key and then by that number.
pub trait Waits {
    type Key;

    // what an element is ranked by
    ghost key: { Self → Self.Key };

    // the number of its batch, which settles a tie
    ghost number: { Self → ℕ };

    // whether the first element is ahead of the second
    ghost leads: { Self → Self → Bool };

    // the element of a batch and its number
    ghost made: { Batch → ℕ → Self };

    // Whether this element goes before the other.
    fn ahead(&self, other: &Self) -> bool
        ensures { result ≡ leads self.now other.now };

    // The element of the batch with the number `which`.
    fn of(batch: Batch, which: u8) -> Self
        ensures { result ≡ made batch which };

    // The number of its batch.
    fn number(&self) -> u8
        ensures { result ≡ number self.now };

    // What it is ranked by.
    fn key(&self) -> Self::Key
        ensures { result ≡ key self.now };

    // of two elements at most one is ahead
    ghost oneway: { (x y : Self) → leads x y ≡ true → leads y x ≡ false };

    // an element ahead of one that is ahead of a third is ahead of the third
    ghost chain: { (x y z : Self) → leads x y ≡ true → leads y z ≡ true → leads x z ≡ true };

    // two elements of which neither is ahead have one key and one number
    ghost tied: { (x y : Self) → leads x y ≡ false → leads y x ≡ false → (key x ≡ key y) × (number x ≡ number y) };

    // of two elements with one key and one number neither is ahead
    ghost level: { (x y : Self) → key x ≡ key y → number x ≡ number y → leads x y ≡ false };

    // an element has the number that it was made with
    ghost numbered: { (b : Batch) (k : ℕ) → number (made b k) ≡ k };
}
