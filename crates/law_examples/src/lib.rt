//! Worked examples of the laws: their premises are met.
#![tactic(auto)]

mod audits;
mod correction;
mod guards;
mod sizes;
mod sources;
mod tallies;

pub use audits::small_files_are_audited;
pub use correction::{small_guards_correct, small_lists_are_joined, small_texts_correct};
pub use guards::{guards_have_numbered_inner, small_guards_are_built, small_texts_are_guard_texts};
pub use sizes::small_labels_stand_in_order;
pub use sources::small_placement_is_numbered;
pub use tallies::small_runs_are_seen;
