//! Statements of a source as gates, with the models that they place in place of them.
#![tactic(auto)]

mod binds;
mod inside;

pub use inside::{lower_model, lower_statement};
