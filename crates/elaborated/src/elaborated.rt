// The machine of a source with the source's names.

use blif_read::Clocking;
use gate_net::Machine;
use imp_text::{Name, NameId, Names};
use std::marker::Model;

/// The machine of gates that a source stands for, with the names of its ports, outputs and latches in the order of
/// their lines. The data names are those input ports that are no clock nets, in order. The net of an output is a leaf
/// exactly where the output has that leaf's name.
#[derive(Drop)]
pub struct Elaborated {
    pub machine: Machine,
    pub model: Name,
    pub names: Names,
    pub input_ports: Vec<NameId>,
    pub clock_ports: Vec<NameId>,
    pub data_names: Vec<NameId>,
    pub output_names: Vec<NameId>,
    pub latch_names: Vec<NameId>,
    /// That of all latches, and none where there is no latch.
    pub clocking: Clocking,
    /// How many latches have an init that is 2, 3 or missing.
    pub unknown_inits: u32,
}

impl Model for Elaborated {
    ghost use Rattle.netlist_spec.specs.Elaborated.{Elaborated as ElaboratedSource};

    ghost Value = { ElaboratedSource };

    ghost use Rattle.elaborated.specs.Elaborated.{IsWellElaborated, elaborated_of};

    ghost view = { elaborated_of };

    ghost invariant = { IsWellElaborated };
}
