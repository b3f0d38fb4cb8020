//! The text in Berkeley BLIF that a gate list with names is written as, and the file that this text says.
#![tactic(auto)]

mod cover;
mod file;
mod lines;
mod numbers;
mod refusal;
mod rows;
mod text;

pub use file::as_file;
pub use refusal::WriteRefusal;
pub use text::write;
