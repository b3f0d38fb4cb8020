//! Tests of `guard`, and of `sim` and `audit` on what it writes, by the program's one call.
#![tactic(auto)]

#[cfg(test)]
mod tests;
