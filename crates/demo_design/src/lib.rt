//! A design of any size with nonlinear layers, made from a number: its netlist, its settings and its stimulus.
#![tactic(auto)]

mod design;
mod lines;
mod names;
mod netlist_text;
mod settings_text;
mod stimulus;

pub use design::{Demo, demo_design};
