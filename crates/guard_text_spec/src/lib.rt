//! Definitions of what is said of the bytes that a guard is written as.
#![tactic(auto)]
