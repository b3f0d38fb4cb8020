//! The program once more: it is run on a netlist that it refuses, so it has to end with the status of a refusal.
#![tactic(auto)]

use imp_main::run_words;
use std::process::ExitCode;

fn main(rt: HostRuntime) -> ExitCode {
    run_words(&rt, rt.stdout(), rt.stderr())
}
