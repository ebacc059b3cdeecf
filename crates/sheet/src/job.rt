// What a sheet asks for.
use layers::{Pair, Weighted};
use rated::Rated;
use reload::Reload;
use windows::Windows;

// Rated with a weight, and Reload.
pub type SheetRule = Pair<Weighted<Rated>, Reload>;

// Windows to search under a rule and a cap.
#[derive(Drop)]
pub struct Job {
    pub windows: Windows,
    pub rule: SheetRule,
    pub limit: u64,
}
