//! Tests of the commands `sim` and `audit` by the program's one call.
#![tactic(auto)]

#[cfg(test)]
mod audits;
#[cfg(test)]
mod simulations;
