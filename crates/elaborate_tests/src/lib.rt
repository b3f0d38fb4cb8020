//! Tests of `elaborate` and `elaborated`, by their public calls.
#![tactic(auto)]

#[cfg(test)]
mod flat_texts;
#[cfg(test)]
mod long_texts;
#[cfg(test)]
mod machines;
#[cfg(test)]
mod sources;
