#![tactic(auto)]

mod batches;

pub use batches::Batches;

#[cfg(test)]
mod tests;
