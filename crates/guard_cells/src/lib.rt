//! Copies of cones, check bits and rails as cells of a guard's bits, each at the end of a range of its own.
#![tactic(auto)]

mod bits;
mod laws;
mod rails;
mod sketch;

pub use bits::{add_checks, add_copies};
pub use laws::rows_of_cells_join;
pub use rails::add_rails;
pub use sketch::Sketch;
