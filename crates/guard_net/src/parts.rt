// The parts of a guard: its latches, its outputs and its rails.
ghost use Rattle.std.specs.Prelude.{◌≡◌, ℕ, ◌+◌, ◌*◌, ◌^◌, ◌<◌, ◌≤◌, [], ◌++◌, drop, length, map, IfOk, OnOk};
ghost use Rattle.std.specs.List.{AllByRecursion};
ghost use Rattle.netlist_spec.specs.Gates.{IsMachine};
ghost use Rattle.guard_spec.specs.Codes.{data_places};
ghost use Rattle.guard_spec.specs.Plain.{rail_cost};
ghost use Rattle.guard_spec.specs.Words.{IsPartition};
ghost use Rattle.gate_net.specs.declared.machine.LatchRow.{LatchRow as Latch};
ghost use Rattle.gate_net.specs.Gate.{net_number};
ghost use Rattle.gate_net.specs.GateNet.{net_count};
ghost use Rattle.gate_net.specs.Machine.{latch_row};
ghost use Rattle.guard_cells.specs.Cells.{GivesCosts, words_cost};
ghost use Rattle.guard_laws.specs.Places.{latches_of_words};
ghost use Rattle.guard_net.specs.Built.{HasLatches, HasOutputs, HasRails, stores_of, words_to_watch};

use crate::outputs::add_outputs;
use crate::rails::{push_output_words, push_state_words};
use crate::rows::latch_rows;
use crate::words::{add_output_checks, add_state};
use block_code::Code;
use encode_state::types::Layout;
use gate_net::{LatchRow, Machine, NetId};
use guard_cells::{Sketch, add_rails, rows_of_cells_join};
use std::alloc::{AllocError, Global};

// The nets that latches store.
fn stored_nets(alloc: Global, latches: &[LatchRow]) -> Result<Vec<NetId>, AllocError>
    ensures { IfOk result (λ nets. nets.items ≡ map (λ (r : Latch). r.d) latches.now) }
{
    latches.iter().map(|row| row.d).collect(alloc)
}

// Appends the cells behind the first ones.
fn append_behind(outputs: &mut Vec<NetId>, cells: &[NetId], first: usize) -> Result<(), AllocError>
    requires { first ≤ length cells.now }
    ensures { OnOk result (outputs.new.items ≡ outputs.old.items ++ drop first cells.now) }
{
    outputs.extend_from_slice(&cells[first..])?;
    Ok(())
}

/// The latches of a guard, with the cells that they store. The nets of `leaf` stand for the leaves of the machine.
pub fn add_latches(
    alloc: Global,
    m: &Machine,
    l: &Layout,
    leaf: &[NetId],
    code: &Code,
    s: &mut Sketch,
) -> Result<Vec<LatchRow>, AllocError>
    requires machine { IsMachine m.now }
    requires words { IsPartition (length m.now.latches) (data_places code.now) l.now.state }
    requires leaves { length leaf.now ≡ m.now.net.leaves }
    requires leaf { AllByRecursion (λ n. n < net_count s.old.net) (map net_number leaf.now) }
    requires first { s.old.cells.items ≡ [] }
    requires room { (cost : ℕ → ℕ) × GivesCosts m.now cost
        × (net_count s.old.net + words_cost cost code.now (stores_of m.now) l.now.state ≤ 2 ^ 23) }
    ensures { IfOk result (λ rows. HasLatches m.now code.now l.now (map net_number leaf.now) s.old.net s.new.net (map latch_row rows.items)) }
{
    let stores = stored_nets(alloc, &m.latches)?;
    add_state(alloc, m, &stores, &l.state, leaf, code, s)?;
    let rows = latch_rows(alloc, m, l, code, &s.cells)?;
    Ok(rows)
}

/// The outputs of a guard without its rails: those of the source, copied out of a machine that has an output for each of
/// them, and check bits. In detection the machine is the source itself.
pub fn add_shown(
    alloc: Global,
    source: &Machine,
    m: &Machine,
    l: &Layout,
    leaf: &[NetId],
    code: &Code,
    s: &mut Sketch,
) -> Result<Vec<NetId>, AllocError>
    requires machine { IsMachine m.now }
    requires outputs { length m.now.outputs ≡ length source.now.outputs }
    requires words { IsPartition (length m.now.outputs) (data_places code.now) l.now.output }
    requires inputs { source.now.inputs ≤ s.old.net.leaves }
    requires leaves { length leaf.now ≡ m.now.net.leaves }
    requires leaf { AllByRecursion (λ n. n < net_count s.old.net) (map net_number leaf.now) }
    requires room { (cost : ℕ → ℕ) × GivesCosts m.now cost
        × (net_count s.old.net + words_cost cost code.now m.now.outputs l.now.output ≤ 2 ^ 23) }
    ensures { IfOk result (λ outputs. HasOutputs source.now m.now code.now l.now (map net_number leaf.now) s.old.net s.new.net (map net_number outputs.items)) }
{
    rows_of_cells_join();
    let _columns = code.r();
    let mut outputs = add_outputs(alloc, source, m, leaf, s)?;
    let first = s.cells.len();
    add_output_checks(alloc, m, &l.output, leaf, code, s)?;
    append_behind(&mut outputs, &s.cells, first)?;
    Ok(outputs)
}

/// So many rails over all words, behind the other outputs.
pub(crate) fn add_alarms(
    alloc: Global,
    m: &Machine,
    l: &Layout,
    code: &Code,
    count: u8,
    outputs: &mut Vec<NetId>,
    s: &mut Sketch,
) -> Result<(), AllocError>
    requires state { IsPartition (length m.now.latches) (data_places code.now) l.now.state }
    requires output { IsPartition (length m.now.outputs) (data_places code.now) l.now.output }
    requires leaves { s.old.net.leaves ≡ m.now.inputs + latches_of_words code.now l.now.state }
    requires outputs { length outputs.old.items ≡ length m.now.outputs + length l.now.output * code.now.columns }
    requires below { AllByRecursion (λ n. n < net_count s.old.net) (map net_number outputs.old.items) }
    requires room { net_count s.old.net + count * rail_cost code.now l.now ≤ 2 ^ 23 }
    ensures { OnOk result (HasRails code.now (words_to_watch code.now l.now m.now.inputs (length m.now.outputs) (map net_number outputs.old.items)) count s.old.net s.new.net
        (map net_number outputs.old.items) (map net_number outputs.new.items)) }
{
    // So that a word has few places.
    let _columns = code.r();
    let mut words = Vec::new(alloc);
    push_state_words(&mut words, m.inputs, &l.state, code)?;
    let shown = m.outputs.len();
    push_output_words(&mut words, outputs, shown, &l.output, code)?;
    let first = s.cells.len();
    add_rails(&words, code, count, s)?;
    append_behind(outputs, &s.cells, first)?;
    Ok(())
}
