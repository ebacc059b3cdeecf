//! The listing of a sheet: its best plan, as text in the host's memory.
#![tactic(auto)]

mod listing;
mod running;

pub use listing::list;
