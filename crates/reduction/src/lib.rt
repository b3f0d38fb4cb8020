//! Nets that are joined by an operation, one after another: what the calls share that make gates of covers, tables and
//! linear layers.
#![tactic(auto)]

mod bits;
mod joins;

pub use bits::bit;
pub use joins::{join, joined};
