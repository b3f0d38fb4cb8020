// The gates of the cone of some nets.
ghost use Rattle.std.specs.Prelude.{◌<◌, map, IfOk, OnOk};
ghost use Rattle.std.specs.List.{AllByRecursion};
ghost use Rattle.netlist_spec.specs.Gates.{IsGateList, gate_reads};
ghost use Rattle.gate_net.specs.Gate.{gate_form, net_number};
ghost use Rattle.gate_net.specs.GateNet.{net_count};
ghost use Rattle.cone_split.specs.Copies.{AreConeOf, GainsGates};

use gate_net::{Gate, GateNet, NetId};
use std::alloc::{AllocError, Global};
use std::collections::BTreeSet;

/// The gates of the cone, in the order of their numbers. The greatest gate that is known is read first, since a gate
/// is read by greater ones alone: so each gate is read once, however many others read it. The set of the gates that are
/// still to be read costs a logarithm of its size for each net that a gate of the cone reads.
pub(crate) fn gates_of(
    alloc: Global,
    src: &GateNet,
    roots: &[NetId],
) -> Result<Vec<u32>, AllocError>
    requires { AllByRecursion (λ n. n < net_count src.now) (map net_number roots.now) }
    ensures well_formed { IsGateList src.now }
    ensures cells { IfOk result (λ cells. AreConeOf src.now (map net_number roots.now) cells.items) }
{
    let leaves = src.leaves();
    let nets = src.len();
    let mut pending = BTreeSet::new(alloc);
    add_gates(&mut pending, leaves, roots)?;
    let mut cells = Vec::new(alloc);
    while let Some(n) = pending.pop_last() {
        prove!(n < nets);
        cells.push(n)?;
        add_reads(&mut pending, leaves, src.gate(NetId(n)))?;
    }
    cells.reverse();
    Ok(cells)
}

/// Adds the gates that a gate reads.
fn add_reads(pending: &mut BTreeSet<u32>, leaves: u32, gate: Gate) -> Result<(), AllocError>
    ensures { OnOk result (GainsGates leaves pending.old.keys pending.new.keys (gate_reads (gate_form gate))) }
{
    match gate {
        Gate::Const(_) => Ok(()),
        Gate::One { a, .. } => add_gates(pending, leaves, &[a]),
        Gate::Two { a, b, .. } => add_gates(pending, leaves, &[a, b]),
    }
}

/// Adds those of the nets that are gates.
fn add_gates(pending: &mut BTreeSet<u32>, leaves: u32, nets: &[NetId]) -> Result<(), AllocError>
    ensures { OnOk result (GainsGates leaves pending.old.keys pending.new.keys (map net_number nets.now)) }
{
    for n in nets {
        if n.0 >= leaves {
            pending.insert(n.0)?;
        }
    }
    Ok(())
}
