//! Job sheets: the reader of their bytes, and the windows, the rule and the cap that they ask for.
#![tactic(auto)]

mod bytes;
mod frame;
mod head;
mod job;
mod loading;
mod reading;
mod section;

pub use bytes::number_at;
pub use head::Head;
pub use job::{Job, SheetRule};
pub use loading::load;
pub use reading::read;
pub use section::{Section, Sheet};
