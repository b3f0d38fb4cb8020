//! Gate lists with names, and the laws of the files that they stand for.
#![tactic(auto)]

mod label;
mod laws;
mod named;

pub use label::{Label, NameText};
pub use laws::{
    named_files_are_ordered, named_files_have_written_form, named_files_run_as_gates,
    named_texts_are_read,
};
pub use named::Named;
