//! The gates of a guard in detection, and of one whose bits are copied out of another machine its latches and outputs.
#![tactic(auto)]

mod guard;
mod leaves;
mod outputs;
mod parts;
mod rails;
mod rows;
mod words;

pub use guard::build;
pub use parts::{add_latches, add_shown};
pub use rails::word_run;
