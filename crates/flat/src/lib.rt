//! Two rules over capacities: Slots, which only keeps them, and Flat, which also keeps due periods and charges for waiting.
#![tactic(auto)]

mod ends;
mod flat;
mod slots;

pub use flat::Flat;
pub use slots::Slots;
