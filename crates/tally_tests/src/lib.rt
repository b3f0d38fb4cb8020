//! Tests of `campaign` and `demo` by the program's one call.
#![tactic(auto)]

#[cfg(test)]
mod campaigns;
#[cfg(test)]
mod demos;
#[cfg(test)]
mod files;
#[cfg(test)]
mod refused;
