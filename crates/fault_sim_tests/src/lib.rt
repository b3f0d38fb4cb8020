//! Tests of `fault_sim` and `fault_script`, by their public calls.
#![tactic(auto)]

#[cfg(test)]
mod cycles;
#[cfg(test)]
mod scripts;
