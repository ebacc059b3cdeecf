//! The planner for callers in C and Rust: functions on numbers and bytes.
#![tactic(auto)]

mod tables;
