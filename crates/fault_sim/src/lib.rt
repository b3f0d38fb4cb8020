//! The values of a netlist, cycle by cycle, some of its cells being faulty.
#![tactic(auto)]

mod build;
mod cells;
mod cover;
mod faults;
mod gates;
mod laws;
mod row;
mod sim;

pub use cells::CellId;
pub use faults::CellFault;
pub use laws::cycles_make_a_run;
pub use line_order::OrderFault as SimFault;
pub use sim::Sim;
