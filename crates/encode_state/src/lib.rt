//! Words over the latches and over the outputs of a source, and the bits that the latches of its guard start with.
#![tactic(auto)]

mod checks;
mod fault;
mod inits;
mod layouts;
mod named;
mod nets;
mod places;
mod taken;
pub mod types;

pub use fault::LayoutFault;
pub use inits::initial;
pub use layouts::{layout, layout_of};
pub use nets::{latch_outputs, output_nets};
