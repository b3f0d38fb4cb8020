//! Tests of `line_order`, by its public calls.
#![tactic(auto)]

#[cfg(test)]
mod tests;
