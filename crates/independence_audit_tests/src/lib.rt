//! Tests of `independence_audit`, by its public calls.
#![tactic(auto)]

#[cfg(test)]
mod tests;
