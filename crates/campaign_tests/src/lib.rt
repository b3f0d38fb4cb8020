//! Tests of `campaign` and `demo_design`, by their public calls.
#![tactic(auto)]

#[cfg(test)]
mod designs;
#[cfg(test)]
mod tallies;
