//! One statement of a source as gates: a cover, an S-box or a linear layer.
#![tactic(auto)]

mod cells;
mod covers;
mod narrow;
mod ports;

pub use cells::lower_cell;
