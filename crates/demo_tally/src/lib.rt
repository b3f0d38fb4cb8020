//! The demo design, guarded and tried.
#![tactic(auto)]

mod demo;
mod files;
mod guard;

pub use demo::{DemoTally, try_demo};
