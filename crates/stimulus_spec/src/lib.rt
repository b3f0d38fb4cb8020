//! Definitions of stimulus and script files.
#![tactic(auto)]
