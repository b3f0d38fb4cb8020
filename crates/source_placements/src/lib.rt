//! What the `.subckt` of a source place: names without a meaning, and ports that are wrong or not given.
#![tactic(auto)]

mod formals;
mod missing;
mod names;
mod ports;

pub use names::first_no_such_model;
pub use ports::first_bad_port;
