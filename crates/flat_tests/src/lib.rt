//! Tests of the command `flat` and of all that it stands on.
#![tactic(auto)]

#[cfg(test)]
mod netlists;
#[cfg(test)]
mod sources;
