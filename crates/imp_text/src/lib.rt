//! What readers of text share: logical lines and their words, names and covers, numbers, and names as they are printed.
#![tactic(auto)]

mod cover;
mod digits;
mod line;
mod lines;
mod names;
mod printed;
mod quantity;
mod text;
mod token;
mod words;

pub use cover::{Cover, Row};
pub use digits::decimal;
pub use lines::Lines;
pub use names::{NameId, Names};
pub use printed::escape;
pub use quantity::What;
pub use text::{Name, Text};
pub use token::Token;
