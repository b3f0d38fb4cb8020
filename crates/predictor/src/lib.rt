//! Check bits of words whose bits some nets have, each as a copy of the nets' cones.
#![tactic(auto)]

mod bit;
mod laws;

pub use bit::check_bit;
pub use laws::check_bits_cost_no_more;
