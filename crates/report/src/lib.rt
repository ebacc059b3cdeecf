//! What a search came to, told as text in the host's memory.
#![tactic(auto)]

mod outcome;
mod plan;
mod reading;
mod text;
mod writing;

pub use outcome::Outcome;
pub use plan::Plan;
pub use reading::one_reading;
pub use writing::write_report;
