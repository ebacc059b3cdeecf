//! The search for the best schedule under a rule.
#![tactic(auto)]

mod call;
mod held;
mod history;
mod inner;
mod left;
mod search;

pub use call::Call;
pub use history::replay;
pub use runs::{Phase, Step};
pub use search::Search;
