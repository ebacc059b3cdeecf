// The calls on a search, as a list of them is replayed.
use windows::Windows;

#[derive(Clone, Copy)]
pub enum Call {
    Open(Windows, u64), // windows and a cap
    Step,
    Tighten(u64), // a cap
    Read(usize), // the length of the memory handed in
}
