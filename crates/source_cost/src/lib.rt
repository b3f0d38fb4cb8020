//! What the statements of a source cost, in cells.
#![tactic(auto)]

mod cells;
mod models;
mod statements;
mod sums;

pub use models::main_costs;
pub use sums::total_cost;
