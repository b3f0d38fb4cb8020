//! Cycles of graphs over numbers: the first node that leads back to itself, in linear work.
#![tactic(auto)]

mod cycles;
mod finish;
mod reverse;
mod roots;

pub use cycles::first_on_cycle;
