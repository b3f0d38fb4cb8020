//! Tests of plain sizes, of the words over a source and of their inits, by public calls.
#![tactic(auto)]

#[cfg(test)]
mod designs;
#[cfg(test)]
mod inits;
#[cfg(test)]
mod sizes;
