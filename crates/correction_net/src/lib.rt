//! The gates of a guard in correction.
#![tactic(auto)]

mod guard;
mod stand_in;

pub use guard::build_correcting;
