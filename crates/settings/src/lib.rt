//! The settings of a guard, as a TOML document gives them, and whether their code is strong enough.
#![tactic(auto)]

mod bits;
mod entries;
mod fault;
mod keys;
mod linears;
mod matrix;
mod reader;
mod scalars;
mod strong;
mod tables;
mod types;
mod words;

pub use fault::SetFault;
use imp_text::{Name, Text};
pub use reader::read;
pub use strong::{TooSmall, strength};
pub use types::{Mode, Settings};
