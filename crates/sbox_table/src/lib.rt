//! S-box tables, and gates for them.
#![tactic(auto)]

mod minterms;
mod named;
mod outputs;
mod table;

pub use named::find_in_byte_order;
pub use outputs::lower;
pub use table::{NamedTable, Table};
