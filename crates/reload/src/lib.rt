//! Reload, the rule of one batch at a time with a charge from each kind of load to the next.
#![tactic(auto)]

mod reload;
mod schedule;
mod table;

pub use reload::Reload;
