//! Whether each cell of a netlist serves one bit, a latch or an output, or the first cell that doesn't.
#![tactic(auto)]

mod kept;
mod known;
mod pass;
mod table;
mod tell;
pub mod types;

pub use line_order::OrderFault as AuditFault;
pub use tell::audit;
