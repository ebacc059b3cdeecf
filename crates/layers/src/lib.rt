//! Layers over rules: a pair of two rules, and a rule with a weight.
#![tactic(auto)]

ghost use Rattle.layers.specs.Laws.{RoundsSettle};

mod pair;
mod rounds;
mod weight;
mod weighted;

pub use pair::Pair;
pub use weight::Weight;
pub use weighted::Weighted;

// That the rounds of a pair end by themselves, before any count of them could end them.
pub fn rounds_settle()
    ensures { RoundsSettle }
{}
