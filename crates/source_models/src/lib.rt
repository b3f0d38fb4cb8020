//! Which models a source uses, which of them contain themselves, have latches inside or stand too deep.
#![tactic(auto)]

mod models;
mod sort;
mod types;

pub use models::{first_latch_inside, first_too_deep, recursion, used_models};
pub use types::Recursion;
