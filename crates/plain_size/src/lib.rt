//! The plain size of a guard of a source, up to its limit.
#![tactic(auto)]

mod cones;
mod nets;
mod nodes;
mod prices;
mod size;
mod source;
mod sums;
mod walk;

pub use size::size_by_costs;
pub use source::{plain_size, size_of_checked};
