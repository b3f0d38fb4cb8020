//! What the statements of a file mean, and which nets they read and drive.
#![tactic(auto)]

mod catalog;
mod library_port;
mod models;
mod name_index;
mod ports;
mod rows;
mod statement;
mod types;

pub use library_port::number_of;
pub use models::survey;
pub use name_index::NameIndex;
pub use ports::{PortKind, PortMarks, is_port, port_marks};
pub use rows::NetRows;
pub use types::{Meaning, ModelSurvey, Source, Survey};
