//! The distance of a systematic linear binary code, and the error patterns that its syndromes tell apart.
#![tactic(auto)]

mod error_patterns;
mod least_weight;

pub use error_patterns::{Pattern, patterns};
pub use least_weight::distance;
