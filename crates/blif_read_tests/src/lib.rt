//! Tests of `blif_read`, by its one call.
#![tactic(auto)]

#[cfg(test)]
mod tests;
