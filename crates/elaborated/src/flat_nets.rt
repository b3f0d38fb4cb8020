// The nets of a flat netlist.
ghost use Rattle.std.specs.Prelude.{◌≡◌, ◌+◌, ◌^◌, ◌<◌, ◌≤◌, [], ◌∷◌, ◌++◌, false, length, map, nat_lt, IfOk, OnOk, if◌then◌else◌};
ghost use Rattle.std.specs.List.{AllByRecursion};
ghost use Rattle.gate_net.specs.Gate.{net_number};
ghost use Rattle.gate_net.specs.GateNet.{net_count};
ghost use Rattle.elaborated.specs.Flat.{AreFlatNets, copies_of};

use crate::Elaborated;
use gate_net::{Gate, GateNet, NetId};
use std::alloc::{AllocError, Global};

/// The nets of a flat netlist: the machine's, then one cell for each output that is neither a data input nor a latch.
/// `outputs` has the net of each output, in order.
#[derive(Drop)]
pub struct FlatNets {
    pub net: GateNet,
    pub outputs: Vec<NetId>,
}

/// The nets of the flat netlist of a source.
pub fn flat(alloc: Global, e: &Elaborated) -> Result<FlatNets, AllocError>
    ensures { IfOk result
        (λ nets. AreFlatNets e.now.machine.net e.now.machine.outputs nets.net (map net_number nets.outputs.items)) }
{
    let net = copied(alloc, &e.machine.net)?;
    with_outputs(alloc, net, &e.machine.outputs)
}

fn copied(alloc: Global, net: &GateNet) -> Result<GateNet, AllocError>
    requires { net.now.leaves < 2 ^ 23 }
    ensures { IfOk result (λ copy. copy ≡ net.now) }
{
    let mut copy = GateNet::new(alloc, net.leaves())?;
    for n in net.leaves()..net.len() {
        copy.push(net.gate(NetId(n)))?;
    }
    Ok(copy)
}

// Appends the cells of the outputs.
fn with_outputs(alloc: Global, mut net: GateNet, ends: &[NetId]) -> Result<FlatNets, AllocError>
    requires nets { AllByRecursion (λ n. n < net_count net) (map net_number ends.now) }
    requires room { net_count net + length ends.now ≤ 2 ^ 23 }
    ensures { IfOk result
        (λ nets. AreFlatNets net (map net_number ends.now) nets.net (map net_number nets.outputs.items)) }
{
    let mut outputs = Vec::new(alloc);
    for n in ends {
        let cell = output_cell(*n, &mut net)?;
        outputs.push(cell)?;
    }
    Ok(FlatNets { net, outputs })
}

// The net of an output: a leaf as it is, and a new copy of a gate.
fn output_cell(n: NetId, net: &mut GateNet) -> Result<NetId, AllocError>
    requires net { n.0 < net_count net.old }
    requires room { net_count net.old < 2 ^ 23 }
    ensures cell { IfOk result (λ k. k.0 ≡ (if nat_lt n.0 net.old.leaves then n.0 else net_count net.old)) }
    ensures net { OnOk result (net.new ≡ record net.old { gates = net.old.gates ++ copies_of net.old.leaves (n.0 ∷ []) }) }
{
    if n.0 < net.leaves() {
        Ok(n)
    } else {
        net.push(Gate::One { inv: false, a: n })
    }
}
