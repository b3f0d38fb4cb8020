//! Script files of the simulator: which cells are faulty in which cycle.
#![tactic(auto)]

mod entry;
mod fault;
mod script;

pub use fault::ScriptFault;
pub use script::Script;
