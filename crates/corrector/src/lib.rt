//! Correctors: ranges of gates that have the data of the codeword within t of a word.
#![tactic(auto)]

mod corrections;
mod hits;
mod syndromes;

pub use corrections::corrected;
