//! From a source to the machine of gates that it stands for, with its names.
#![tactic(auto)]

mod named;
mod names;
mod source;

pub use source::{elaborate, elaborate_checked};
pub use source_check::ElabFault;
