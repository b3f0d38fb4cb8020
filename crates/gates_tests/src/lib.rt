//! Tests of the crates that make gates, by their public calls.
#![tactic(auto)]

#[cfg(test)]
mod check_bits;
#[cfg(test)]
mod copies;
#[cfg(test)]
mod covers;
#[cfg(test)]
mod gates;
#[cfg(test)]
mod joins;
#[cfg(test)]
mod layers;
#[cfg(test)]
mod rails;
#[cfg(test)]
mod tables;
