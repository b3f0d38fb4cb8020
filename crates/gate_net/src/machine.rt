// Clocked machines: latches over a gate list.
ghost use Rattle.std.specs.Prelude.{◌≡◌, ℕ, ◌+◌, ◌<◌, ◌≤◌, [], ◌++◌, length, map, take};
ghost use Rattle.std.specs.List.{AllByRecursion};
ghost use Rattle.netlist_spec.specs.Gates.{GateStep, IsEvaluation};
ghost use Rattle.gate_net.specs.Gate.{net_number};
ghost use Rattle.gate_net.specs.GateNet.{net_bit, net_count};
ghost use Rattle.gate_net.specs.Machine.{latch_row};

use crate::{GateNet, NetId};
use std::marker::Model;

/// A latch: the net that it stores, and the bit that it starts with.
#[derive(Clone, Copy, Debug, PartialEq, Eq)]
pub struct LatchRow {
    pub d: NetId,
    pub init: bool,
}

/// A clocked machine. The leaves of its net are the data inputs and then the latches, and each stored net and each
/// output is one of its nets.
#[derive(Debug, Drop)]
pub struct Machine {
    pub net: GateNet,
    pub inputs: u32,
    pub latches: Vec<LatchRow>,
    pub outputs: Vec<NetId>,
}

impl Model for Machine {
    ghost use Rattle.netlist_spec.specs.Gates.{IsMachine, Machine as GateMachine};
    ghost use Rattle.gate_net.specs.Machine.{machine_of};

    ghost Value = { GateMachine };

    ghost view = { λ m. machine_of m.net m.inputs m.latches.items m.outputs.items };

    ghost invariant = { λ m. IsMachine (machine_of m.net m.inputs m.latches.items m.outputs.items) };
}

impl Machine {
    /// One cycle: the outputs and the next state from the inputs and the state. The row gets the bits of all nets.
    pub fn step_into(&self, x: &[bool], state: &mut [bool], row: &mut [bool], out: &mut [bool])
        requires inputs { length x.now ≡ self.now.inputs }
        requires state { length state.old ≡ length self.now.latches }
        requires row { length row.old ≡ net_count self.now.net }
        requires out { length out.old ≡ length self.now.outputs }
        ensures step { GateStep self.now [] x.now state.old out.new state.new }
        ensures row { IsEvaluation self.now.net (x.now ++ state.old) (net_bit row.new) }
    {
        let net = &self.net;
        put_leaves(x, state, row);
        net.answer_gates(row);
        read_outputs(&self.outputs, row, out);
        store(&self.latches, row, state);
    }
}

/// Puts the inputs and then the state in front of the row.
fn put_leaves(x: &[bool], state: &[bool], row: &mut [bool])
    requires { length x.now + length state.now ≤ length row.old }
    ensures { take (length x.now + length state.now) row.new ≡ x.now ++ state.now }
{
    let (inputs, rest) = row.split_at_mut(x.len());
    inputs.copy_from_slice(x);
    rest[..state.len()].copy_from_slice(state);
}

/// The bits of the outputs.
fn read_outputs(outputs: &[NetId], row: &[bool], out: &mut [bool])
    requires nets { AllByRecursion (λ n. n < length row.now) (map net_number outputs.now) }
    requires out { length out.old ≡ length outputs.now }
    ensures { out.new ≡ map (net_bit row.now) (map net_number outputs.now) }
{
    for (i, n) in outputs.iter().enumerate() {
        out[i] = row[n.0 as usize];
    }
}

/// The bits that the latches store.
fn store(latches: &[LatchRow], row: &[bool], state: &mut [bool])
    requires nets { AllByRecursion (λ l. l.d < length row.now) (map latch_row latches.now) }
    requires state { length state.old ≡ length latches.now }
    ensures { state.new ≡ map (net_bit row.now) (map (λ l. l.d) (map latch_row latches.now)) }
{
    for (i, latch) in latches.iter().enumerate() {
        state[i] = row[latch.d.0 as usize];
    }
}
