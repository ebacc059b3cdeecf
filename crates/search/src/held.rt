// The plan that a search holds.
use windows::Windows;

// The schedule as windows of one period each, and its charge.
#[derive(Clone, Copy)]
pub struct Held {
    pub(crate) windows: Windows,
    pub(crate) charge: u64,
}
