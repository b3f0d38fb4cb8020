//! An order in which items settle nets, what it leaves over, and the loop that a walk over what is left over ends in.
#![tactic(auto)]

mod loops;
mod order;
mod state;
mod waiting;

pub use loops::walk;
pub use order::{Settled, settle};
