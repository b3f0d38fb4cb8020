//! Gates for the covers of Berkeley BLIF.
#![tactic(auto)]

mod products;

pub use products::lower;
