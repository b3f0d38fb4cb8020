//! Graphs over numbers: for each node a list of its ends, and which nodes chains of edges lead to.
#![tactic(auto)]

mod chains;
mod graph;

pub use chains::{mark_ends, reach, reach_all, reach_past};
pub use graph::Graph;
