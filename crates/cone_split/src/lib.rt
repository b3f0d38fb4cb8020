//! Copies of cones: gates that answer the xor of some nets, as a range of their own that reads nothing but the nets
//! that are given for the leaves.
#![tactic(auto)]

mod cone;
mod copy;
mod laws;
mod sum;

pub use copy::{copy_all, copy_xor};
pub use laws::{cones_have_one_size, ranges_answer_alone, ranges_stay};
