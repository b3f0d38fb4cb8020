//! The order in which the nets of a source settle, or the loop in which they don't.
#![tactic(auto)]

mod drivers;
mod given;
mod nets;
mod settle;
mod told;

pub use drivers::net_drivers;
pub use settle::{Settling, settle_models};
