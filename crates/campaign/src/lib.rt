//! What every single fault of a guard does in one cycle, counted by outcome.
#![tactic(auto)]

mod all_faults;
mod cycle;
mod near;
mod rest;
mod runner;
mod seen;
mod sort;
mod source;
mod tally;
mod task;
mod words;

pub use all_faults::single;
pub use tally::Tally;
