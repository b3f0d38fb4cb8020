// The names of a guard's nets.
ghost use Rattle.std.specs.Prelude.{◌≡◌, ℕ, ◌+◌, ◌≤◌, List, length, map, IfOk};
ghost use Rattle.netlist_spec.specs.GateRanges.{Region};
ghost use Rattle.netlist_spec.specs.Written.{IsNamed};
ghost use Rattle.guard_spec.specs.Codes.{data_places};
ghost use Rattle.guard_spec.specs.Words.{IsPartition};
ghost use Rattle.gate_net.specs.Gate.{net_number};
ghost use Rattle.guard_laws.specs.Named.{IsGuardNamed};
ghost use Rattle.guard_names.specs.OfGuard.{CanLabel, guard_labels_of, own_labels, own_nets};
ghost use Rattle.guard_names.specs.ToName.{IsToName, guarded_of};

use crate::labels::{Kind, push_given, push_state};
use crate::own::{output_labels, push_between, push_gates, stored_nets};
use block_code::Code;
use elaborated::Elaborated;
use encode_state::types::Layout;
use gate_net::{GateNet, LatchRow, Machine, NetId};
use imp_text::NameId;
use named_netlist::{Label, Named};
use std::alloc::{AllocError, Global};

/// The nets of a guard: its latches by word and then by place, and its outputs, which are the source's, then the check
/// bits of each output word, and then the rails.
#[derive(Drop)]
pub struct GuardNets {
    pub net: GateNet,
    pub latches: Vec<LatchRow>,
    pub outputs: Vec<NetId>,
    pub rails: u32,
}

/// The gate list of a guard with names: those of the source for the data inputs and the source's outputs, and names that
/// say the word and the place, the rail, or else the number of a cell. Beside it the source's machine comes back.
pub fn name_guard(
    alloc: Global,
    g: GuardNets,
    e: Elaborated,
    l: &Layout,
    c: &Code,
) -> Result<(Named, Machine), AllocError>
    requires guard { IsToName g e c.now l.now }
    requires state { IsPartition (length e.latch_names) (data_places c.now) l.now.state }
    requires output { IsPartition (length e.output_names) (data_places c.now) l.now.output }
    requires cells { length g.latches.items + length g.net.gates ≤ 1000000 }
    requires rails { g.rails ≤ 17 }
    ensures guard { IfOk result (λ r. (regions : List Region) → IsGuardNamed r.0 (guarded_of g e.machine.inputs regions) e c.now l.now) }
    ensures is_named { IfOk result (λ r. IsNamed r.0) }
    ensures machine { IfOk result (λ r. r.1 ≡ e.machine) }
{
    let Elaborated {
        machine,
        model,
        names,
        input_ports,
        clock_ports,
        data_names,
        output_names,
        latch_names: _,
        clocking,
        unknown_inits,
    } = e;
    let columns = u32::from(c.r());
    let labels = guard_labels(alloc, &g, &data_names, &output_names, l, columns)?;
    let GuardNets {
        net,
        latches,
        outputs,
        rails: _,
    } = g;
    let named = Named {
        model,
        names,
        unknown_inits,
        inputs: input_ports,
        clocks: clock_ports,
        outputs,
        clocking,
        net,
        labels,
        latches,
        data_inputs: machine.inputs,
    };
    Ok((named, machine))
}

// The labels of data inputs, latches and gates.
fn guard_labels(
    alloc: Global,
    g: &GuardNets,
    data_names: &[NameId],
    output_names: &[NameId],
    l: &Layout,
    columns: u32,
) -> Result<Vec<Label>, AllocError>
    requires { CanLabel g.now (length data_names.now) (length output_names.now) l.now columns }
    ensures { IfOk result (λ labels. labels.items ≡ guard_labels_of g.now data_names.now output_names.now l.now columns) }
{
    let own = own_cells(alloc, g, output_names, l, columns)?;
    let mut labels = Vec::new(alloc);
    push_given(&mut labels, data_names)?;
    push_state(&mut labels, Kind::Store, &l.state, columns)?;
    push_between(&mut labels, &own.nets, &own.labels)?;
    Ok(labels)
}

// The cells with names of their own.
#[derive(Drop)]
struct Own {
    nets: Vec<NetId>,
    labels: Vec<Label>,
}

// What latches store, and the outputs that are gates.
fn own_cells(
    alloc: Global,
    g: &GuardNets,
    output_names: &[NameId],
    l: &Layout,
    columns: u32,
) -> Result<Own, AllocError>
    requires { (inputs : ℕ) × CanLabel g.now inputs (length output_names.now) l.now columns }
    ensures nets { IfOk result (λ own. map net_number own.nets.items ≡ own_nets g.now) }
    ensures labels { IfOk result (λ own. own.labels.items ≡ own_labels g.now output_names.now l.now columns) }
{
    let mut nets = stored_nets(alloc, &g.latches)?;
    let mut labels = Vec::new(alloc);
    push_state(&mut labels, Kind::Next, &l.state, columns)?;
    let words = l.output.len() as u32;
    let shown = output_labels(alloc, output_names, words, columns, g.rails)?;
    push_gates(&mut nets, &mut labels, &g.outputs, &shown, g.net.leaves())?;
    Ok(Own { nets, labels })
}
