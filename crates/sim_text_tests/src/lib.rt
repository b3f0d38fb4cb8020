//! Tests of `sim_text`, by its public calls.
#![tactic(auto)]

#[cfg(test)]
mod stimuli;
