//! Tests of `impeccable` by its one call: words, files and sinks, and the command `code`.
#![tactic(auto)]

#[cfg(test)]
mod tests;
