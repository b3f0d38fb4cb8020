//! Tests of correctors over all words of small codes, by their public calls.
#![tactic(auto)]

#[cfg(test)]
mod corrections;
