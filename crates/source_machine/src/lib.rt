//! The machine of gates that a sound source stands for.
#![tactic(auto)]

mod gates;
mod leaves;
mod machine;
mod ports;

pub use machine::machine_of;
