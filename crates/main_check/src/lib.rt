//! What the check of a source asks of its main model: how it is clocked, which names it has, and how large it is.
#![tactic(auto)]

mod clocking;
mod counts;
mod reserved;

pub use clocking::clocking_fault;
pub use counts::{has_latch, too_large};
pub use reserved::{Reserved, reserved_name};
