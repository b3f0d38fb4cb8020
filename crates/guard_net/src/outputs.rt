// Cells of the outputs of the source.
ghost use Rattle.std.specs.Prelude.{◌≡◌, ℕ, ◌+◌, ◌^◌, ◌<◌, ◌≤◌, length, map, sum, IfOk};
ghost use Rattle.std.specs.List.{AllByRecursion};
ghost use Rattle.netlist_spec.specs.Gates.{IsMachine};
ghost use Rattle.gate_net.specs.Gate.{net_number};
ghost use Rattle.gate_net.specs.GateNet.{net_count};
ghost use Rattle.guard_cells.specs.Cells.{GivesCosts, bit_costs};
ghost use Rattle.guard_net.specs.Built.{GainsOutput, GainsOutputs};

use gate_net::{Machine, NetId};
use guard_cells::{Sketch, add_copies, rows_of_cells_join};
use guard_laws::words_have_places;
use std::alloc::{AllocError, Global};

// The net of one output `x` of the source: a data input is passed on, and for another net there is a copy of output `o` of
// the machine with a cell of its own.
fn add_output(
    alloc: Global,
    source: &Machine,
    m: &Machine,
    x: NetId,
    o: NetId,
    leaf: &[NetId],
    s: &mut Sketch,
) -> Result<NetId, AllocError>
    requires machine { IsMachine m.now }
    requires net { o.0 < net_count m.now.net }
    requires inputs { source.now.inputs ≤ s.old.net.leaves }
    requires leaves { length leaf.now ≡ m.now.net.leaves }
    requires leaf { AllByRecursion (λ n. n < net_count s.old.net) (map net_number leaf.now) }
    requires room { (cost : ℕ → ℕ) × GivesCosts m.now cost × (net_count s.old.net + (2 + cost o.0) ≤ 2 ^ 23) }
    ensures { IfOk result (λ n. GainsOutput source.now m.now (map net_number leaf.now) x.0 o.0 n.0 s.old.net s.new.net) }
{
    if x.0 < source.inputs {
        return Ok(x);
    }
    words_have_places();
    add_copies(alloc, m, &[o], leaf, s)?;
    Ok(s.cells[s.cells.len() - 1])
}

/// The nets of all outputs of the source, in order, copied out of a machine that has an output for each of them.
pub(crate) fn add_outputs(
    alloc: Global,
    source: &Machine,
    m: &Machine,
    leaf: &[NetId],
    s: &mut Sketch,
) -> Result<Vec<NetId>, AllocError>
    requires machine { IsMachine m.now }
    requires outputs { length m.now.outputs ≡ length source.now.outputs }
    requires inputs { source.now.inputs ≤ s.old.net.leaves }
    requires leaves { length leaf.now ≡ m.now.net.leaves }
    requires leaf { AllByRecursion (λ n. n < net_count s.old.net) (map net_number leaf.now) }
    requires room { (cost : ℕ → ℕ) × GivesCosts m.now cost
        × (net_count s.old.net + sum (bit_costs cost m.now.outputs) ≤ 2 ^ 23) }
    ensures { IfOk result (λ shown. GainsOutputs source.now m.now (map net_number leaf.now) source.now.outputs m.now.outputs (map net_number shown.items) s.old.net s.new.net) }
{
    rows_of_cells_join();
    let mut shown = Vec::new(alloc);
    for (i, o) in m.outputs.iter().enumerate() {
        let x = source.outputs[i];
        let n = add_output(alloc, source, m, x, *o, leaf, s)?;
        shown.push(n)?;
    }
    Ok(shown)
}
