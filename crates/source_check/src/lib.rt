//! The check of a source: the first refusal, or all that an elaboration starts from.
#![tactic(auto)]

mod all_tests;
mod fault;
mod laws;
mod main_model;
mod main_tests;
mod model_tests;
mod types;

pub use all_tests::check;
pub use fault::ElabFault;
pub use laws::files_are_not_both_and_refused_once;
pub use types::Checked;
