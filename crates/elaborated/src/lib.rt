//! Elaborated sources, machines of gates with names, and their flat netlists.
#![tactic(auto)]

mod elaborated;
mod flat_nets;
mod laws;
mod named;

pub use elaborated::Elaborated;
pub use flat_nets::{FlatNets, flat};
pub use laws::{
    elaborated_sources_are_written_flat, elaborated_sources_stand_for_their_files,
    flat_netlists_are_flat,
};
pub use named::name_flat;
