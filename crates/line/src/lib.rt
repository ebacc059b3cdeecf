#![tactic(auto)]

mod batch;
mod head;
mod rank;
mod ranked;
mod waits;

pub use batch::Batch;
pub use head::front;
pub use rank::{Earliest, Rank, Rate};
pub use ranked::{ByEarliest, ByRate, Ranked};
pub use waits::Waits;

#[cfg(test)]
mod tests;
