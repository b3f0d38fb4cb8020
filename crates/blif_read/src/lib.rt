//! Netlists in Berkeley BLIF: what a text declares, and its reader.
#![tactic(auto)]

mod fault;
mod file;
mod kind;
mod line;
mod model;
mod models;
mod reader;
mod row;
mod statement;
mod summary;
mod words;

pub use fault::BlifFault;
pub use file::{Bind, Clocking, File, Located, Model, Port, Statement};
pub use imp_text::{Cover, Name, NameId, Names, Row, Text, What};
pub use reader::read;
