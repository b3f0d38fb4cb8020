//! Tests of `settings`, by its public calls.
#![tactic(auto)]

#[cfg(test)]
mod tests;
