//! Follows tasks from the first fill to the last narrowing, and prints each action with its answer.
#![tactic(auto)]

use std::io;

mod capacities;
mod drawing;
mod layered;
mod rates;
mod searching;
mod showing;

fn main(rt: HostRuntime) -> io::Result<()> {
    println!(rt;
        "Windows are drawn a batch to a row and a period to a column: # open, * the only one left, . closed"
    )?;
    capacities::by_slots(&rt)?;
    capacities::by_flat(&rt)?;
    rates::by_rated(&rt)?;
    rates::priced(&rt)?;
    layered::by_pair(&rt)?;
    searching::by_search(&rt)
}
