//! Tests of the crates on codes, by their public calls.
#![tactic(auto)]

#[cfg(test)]
mod codes;
#[cfg(test)]
mod distances;
