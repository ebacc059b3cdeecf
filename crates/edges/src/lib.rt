//! Examples and edges of the windows, the rules and the search, each a test.
#![tactic(auto)]

#[cfg(test)]
mod flat_tests;
#[cfg(test)]
mod layer_tests;
#[cfg(test)]
mod rated_tests;
#[cfg(test)]
mod reload_tests;
#[cfg(test)]
mod search_tests;
#[cfg(test)]
mod window_tests;
