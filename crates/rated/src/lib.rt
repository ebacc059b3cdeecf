//! A rule over capacities and due periods that charges each batch by its own rate.
#![tactic(auto)]

mod measure;
mod rated;
mod scan;

pub use rated::Rated;
