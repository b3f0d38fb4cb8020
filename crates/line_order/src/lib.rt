//! Whether the cells of a netlist can be computed line by line, and the first line at fault where they can't.
#![tactic(auto)]

mod check;
mod clocking;
mod data;
mod fault;
mod marks;
mod merge;
mod tables;

pub use check::check_order;
pub use clocking::{first_clocking, is_declared, same_clocking};
pub use data::data_inputs;
pub use fault::OrderFault;
pub use marks::NetMarks;
pub use merge::{Passed, Place, next_place};
pub use tables::{clock_marks, declared_marks};
