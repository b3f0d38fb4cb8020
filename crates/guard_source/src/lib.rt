//! From a source and its settings to its guard, with names, or the first refusal of the two.
#![tactic(auto)]

mod fault;
mod gates;
mod source;

pub use fault::GuardFault;
pub use source::{SourceGuard, guard_source};
