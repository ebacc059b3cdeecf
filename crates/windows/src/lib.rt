//! Batches, periods and windows, and the numbered refusals of every call.
#![tactic(auto)]

mod extent;
mod refusal;
mod size;
mod window;
mod windows;

pub use extent::Extent;
pub use refusal::Refusal;
pub use size::Size;
pub use window::Window;
pub use windows::Windows;
