//! The program as one call: words and files in, a text and an outcome out.
#![tactic(auto)]

mod audit;
mod campaign_run;
mod code;
mod command;
mod demo;
mod ended;
mod error_line;
mod flat;
mod guard;
mod guarded;
mod lines;
mod load;
mod netlist;
mod outcome;
mod program;
mod settings_file;
mod sim;
mod stimulus_file;

pub use outcome::Outcome;
pub use program::run;
pub use refusals::Refusal;
