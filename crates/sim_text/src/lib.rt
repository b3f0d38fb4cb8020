//! Stimulus files of the simulator.
#![tactic(auto)]

mod bits;
mod fault;
mod row;
mod stimulus;

pub use fault::StimFault;
pub use stimulus::Stimulus;
