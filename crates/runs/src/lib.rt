//! The search as a model: what every call leaves and answers, and the law of every run of calls.
#![tactic(auto)]

ghost use Rattle.runs.specs.Law.{EveryRun};

mod phase;
mod step;

pub use phase::Phase;
pub use step::Step;

// The law holds for every lawful rule after every list of calls.
pub fn every_run()
    ensures { EveryRun }
{}
