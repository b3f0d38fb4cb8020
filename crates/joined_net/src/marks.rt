// Which words the D nets and outputs of a source need.
ghost use Rattle.std.specs.Prelude.{◌≡◌, ℕ, ◌+◌, ◌<◌, ◌^◌, ◌↔◌, length, map, replicate, false, All, IfOk, IsTrue};
ghost use Rattle.std.specs.List.{AllByRecursion};
ghost use Rattle.netlist_spec.specs.Gates.{gate_reads};
ghost use Rattle.gate_net.specs.declared.machine.LatchRow.{LatchRow as Latch};
ghost use Rattle.gate_net.specs.Gate.{gate_form, net_number};
ghost use Rattle.gate_net.specs.GateNet.{net_count};
ghost use Rattle.joined_net.specs.Marks.{AreNeededNets, GainsMarks, GainsReads, HasMark};

use gate_net::{Gate, LatchRow, Machine, NetId};
use std::alloc::{AllocError, Global};

/// Marks of the nets that are reached from a D net or an output: one pass from the last gate to the first.
pub(crate) fn needed_nets(alloc: Global, m: &Machine) -> Result<Vec<bool>, AllocError>
    ensures { IfOk result (λ marks. AreNeededNets m.now marks.items) }
{
    let stores = stored_nets(alloc, &m.latches)?;
    let mut marks = vec![in alloc; false; m.net.len() as usize]?;
    mark_needed(m, &stores, &mut marks);
    Ok(marks)
}

// Marks what the D nets and the outputs need, where nothing is marked yet.
fn mark_needed(m: &Machine, stores: &[NetId], marks: &mut [bool])
    requires stores { map net_number stores.now ≡ map (λ r. r.d) m.now.latches }
    requires bare { marks.old ≡ replicate (net_count m.now.net) false }
    ensures { AreNeededNets m.now marks.new }
{
    let shown = m.outputs.as_slice();
    mark_all(marks, stores);
    mark_all(marks, shown);
    mark_cones(m, marks);
}

// The nets that latches store.
fn stored_nets(alloc: Global, latches: &[LatchRow]) -> Result<Vec<NetId>, AllocError>
    ensures { IfOk result (λ nets. nets.items ≡ map (λ (r : Latch). r.d) latches.now) }
{
    latches.iter().map(|row| row.d).collect(alloc)
}

// Marks some nets.
fn mark_all(marks: &mut [bool], nets: &[NetId])
    requires { AllByRecursion (λ n. n < length marks.old) (map net_number nets.now) }
    ensures { GainsMarks marks.old marks.new (map net_number nets.now) }
{
    for n in nets {
        marks[n.0 as usize] = true;
    }
}

// Marks what a gate reads.
fn mark_reads(marks: &mut [bool], gate: Gate)
    requires { AllByRecursion (λ n. n < length marks.old) (gate_reads (gate_form gate)) }
    ensures { GainsMarks marks.old marks.new (gate_reads (gate_form gate)) }
{
    match gate {
        Gate::Const(_) => {}
        Gate::One { a, .. } => mark_all(marks, &[a]),
        Gate::Two { a, b, .. } => mark_all(marks, &[a, b]),
    }
}

// Marks all nets that are reached from marked ones. A gate is read by later gates alone, so the last one comes first.
fn mark_cones(m: &Machine, marks: &mut [bool])
    requires { length marks.old ≡ net_count m.now.net }
    ensures { GainsReads m.now m.now.net.leaves marks.old marks.new }
{
    for n in (m.net.leaves()..m.net.len()).rev() {
        if marks[n as usize] {
            mark_reads(marks, m.net.gate(NetId(n)));
        }
    }
}

/// Whether some latch of a word is marked.
pub(crate) fn has_mark(marks: &[bool], inputs: u32, word: &[u32]) -> bool
    requires within { All (λ i. inputs + i < length marks.now) word.now }
    requires fits { length marks.now < 2 ^ 32 }
    ensures { IsTrue result ↔ HasMark marks.now inputs word.now }
{
    for i in word {
        if marks[(inputs + *i) as usize] {
            return true;
        }
    }
    false
}
