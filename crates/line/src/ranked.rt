// The orders of waiting.
ghost use Rattle.line.specs.Orders.{ahead_by};
ghost use Rattle.line.specs.Keyed.{keyed_one_way, keyed_chain, keyed_tied, keyed_level};
ghost use Rattle.std.proofs.Common.{rules, ap};

use crate::batch::Batch;
use crate::rank::{Earliest, Rank, Rate};
use crate::waits::Waits;
use std::marker::PhantomData;

// The key and the number of a batch, ranked by R: the greater key is ahead, and a tie goes to the lower number.
#[derive(Clone, Copy, Debug)]
pub struct Ranked<R, K> {
    pub key: K,
    pub number: u8,
    by: PhantomData<R>,
}

// The order of batches that have to go late.
pub type ByEarliest = Ranked<Earliest, u8>;

// The order of batches that cost most to place early.
pub type ByRate = Ranked<Rate, u32>;

impl<R: Rank<K>, K: Copy + Ord> Waits for Ranked<R, K> {
    type Key = K;

    ghost key = { λ x. x.key };

    ghost number = { λ x. x.number };

    ghost leads = { λ x y. ahead_by (R.Rank.value x.key) x.number (R.Rank.value y.key) y.number };

    ghost made = { λ b k. record { key = R.Rank.key b; number = k; by = record {} } };

    ghost oneway = { Prim.search (rules, keyed_one_way) };

    ghost chain = { Prim.search (rules, keyed_chain) };

    ghost tied = { λ x y. keyed_tied R.Rank.value R.Rank.exact x.key x.number y.key y.number };

    ghost level = { λ x y e. keyed_level _ _ _ _ (ap R.Rank.value e) };

    ghost numbered = { Prim.search rules };

    fn ahead(&self, other: &Self) -> bool {
        let by_key = other.key.cmp(&self.key);
        by_key.then(self.number.cmp(&other.number)).is_lt()
    }

    fn of(batch: Batch, which: u8) -> Self {
        Ranked {
            key: R::key(batch),
            number: which,
            by: PhantomData,
        }
    }

    fn number(&self) -> u8 {
        self.number
    }

    fn key(&self) -> K {
        self.key
    }
}
