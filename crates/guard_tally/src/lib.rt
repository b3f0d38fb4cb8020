//! What single faults do to the guard of a source, and the text in which a campaign tells it.
#![tactic(auto)]

mod laws;
mod tally;

pub use laws::{guards_have_their_shape, tallies_make_a_text};
pub use tally::{GuardTally, tally_guard};
