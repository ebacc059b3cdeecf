// The window of one batch: its earliest and its latest period, both included.
#[derive(Clone, Copy)]
pub struct Window {
    pub earliest: u8,
    pub latest: u8,
}
