//! Tests of `blif_write`, by its public calls.
#![tactic(auto)]

#[cfg(test)]
mod tests;
