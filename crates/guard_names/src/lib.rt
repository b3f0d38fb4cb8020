//! The names of a guard's nets.
#![tactic(auto)]

mod labels;
mod laws;
mod named;
mod own;

pub use laws::steps_make_a_guard;
pub use named::{GuardNets, name_guard};
