//! Every refusal of the program, and the lines on the error output that tell of it.
#![tactic(auto)]

mod escaped;
mod lines;
mod refusal;
mod told;

pub use lines::{put_refusal, put_unread};
pub use refusal::Refusal;
