// A gate list with names.
ghost use Rattle.std.specs.Prelude.{◌≡◌, ◌<◌, length};
ghost use Rattle.netlist_spec.specs.Netlist.{IsName};
ghost use Rattle.netlist_spec.specs.Written.{net_name};

use crate::Label;
use crate::label::{NameText, name_bytes};
use blif_read::Clocking;
use gate_net::{GateNet, LatchRow, NetId};
use imp_text::{Name, NameId, Names};
use std::marker::Model;

/// A clocked gate list whose nets have names. Its leaves are the data inputs and then the latches, and there is one
/// label for each net. The data inputs are the inputs that are no clock nets, in order.
#[derive(Drop)]
pub struct Named {
    pub model: Name,
    pub names: Names,
    /// How many latches of the source have an unknown init.
    pub unknown_inits: u32,
    pub inputs: Vec<NameId>,
    pub clocks: Vec<NameId>,
    pub outputs: Vec<NetId>,
    pub clocking: Clocking,
    pub net: GateNet,
    pub labels: Vec<Label>,
    pub latches: Vec<LatchRow>,
    pub data_inputs: u32,
}

impl Model for Named {
    ghost use Rattle.netlist_spec.specs.Written.{Named as NamedGates};

    ghost Value = { NamedGates };

    ghost use Rattle.named_netlist.specs.Named.{IsWellNamed, named_of};

    ghost view = { named_of };

    ghost invariant = { IsWellNamed };
}

impl Named {
    /// The bytes of the name of a net. The room is for a name that isn't given.
    pub fn net_name<'a>(&'a self, n: NetId, room: &'a mut NameText) -> &'a [u8]
        requires { n.0 < length self.now.labels }
        ensures bytes { result.now ≡ net_name self.now n.0 }
        ensures is_name { IsName result.now }
    {
        name_bytes(&self.names, self.labels[n.0 as usize], room)
    }
}
