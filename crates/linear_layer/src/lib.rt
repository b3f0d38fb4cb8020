//! Linear layers, and gates for them.
#![tactic(auto)]

mod layer;
mod named;
mod parities;

pub use layer::{Linear, NamedLinear};
pub use named::find_in_byte_order;
pub use parities::lower;
