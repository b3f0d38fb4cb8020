// A list of gates, each of which reads lower numbers only.
ghost use Rattle.std.specs.Prelude.{◌≡◌, ◌↔◌, ◌+◌, ◌-◌, ◌^◌, ◌<◌, ◌≤◌, [], ◌∷◌, ◌++◌, length, take, Some, slice_get, IsTrue, IfOk, OnOk, OnErr};
ghost use Rattle.std.specs.List.{AllByRecursion};
ghost use Rattle.netlist_spec.specs.Gates.{AnswersWithin, IsEvaluation, gate_reads};
ghost use Rattle.gate_net.specs.Gate.{gate_form};
ghost use Rattle.gate_net.specs.GateNet.{IsNet, net_bit, net_count};

use crate::{Gate, NetId};
use std::alloc::{AllocError, Global};
use std::marker::Model;

/// The nets of a circuit without latches, at most 2^23 of them: leaves, whose bits are given, and then gates.
/// Each gate reads lower nets only.
#[derive(Debug, Drop)]
pub struct GateNet {
    leaves: u32,
    gates: Vec<Gate>,
}

impl Model for GateNet {
    ghost use Rattle.std.specs.Prelude.{map};
    ghost use Rattle.netlist_spec.specs.Gates.{GateList};
    ghost use Rattle.gate_net.specs.Gate.{gate_form};
    ghost use Rattle.gate_net.specs.GateNet.{IsNet};

    ghost Value = { GateList };

    ghost view = { λ net. record { leaves = net.leaves; gates = map gate_form net.gates.items } };

    ghost invariant = { λ net. IsNet (record { leaves = net.leaves; gates = map gate_form net.gates.items }) };
}

impl GateNet {
    /// Leaves alone.
    pub fn new(alloc: Global, leaves: u32) -> Result<GateNet, AllocError>
        requires { leaves < 2 ^ 23 }
        ensures { IfOk result (λ net. net ≡ record { leaves = leaves; gates = [] }) }
    {
        Ok(GateNet {
            leaves,
            gates: Vec::new(alloc),
        })
    }

    /// Appends a gate, and answers its number.
    pub fn push(&mut self, gate: Gate) -> Result<NetId, AllocError>
        requires reads { AllByRecursion (λ n. n < net_count self.old) (gate_reads (gate_form gate)) }
        requires room { net_count self.old < 2 ^ 23 }
        ensures number { IfOk result (λ n. n.0 ≡ net_count self.old) }
        ensures ok { OnOk result (self.new ≡ record self.old { gates = self.old.gates ++ gate_form gate ∷ [] }) }
        ensures err { OnErr result (self.new ≡ self.old) }
    {
        // As for each value of its type, so that it holds of each gate that is kept.
        if let Gate::Two { op, .. } = gate {
            prove!(op.0 < 16);
        }
        let n = self.len();
        self.gates.push(gate)?;
        Ok(NetId(n))
    }

    /// The number of nets.
    pub fn len(&self) -> u32
        ensures count { result ≡ net_count self.now }
        ensures well_formed { IsNet self.now }
    {
        self.leaves + self.gates.len() as u32
    }

    /// Whether there are no nets.
    pub fn is_empty(&self) -> bool
        ensures { IsTrue result ↔ (net_count self.now ≡ 0) }
    {
        self.len() == 0
    }

    pub fn leaves(&self) -> u32
        ensures { result ≡ self.now.leaves }
    {
        self.leaves
    }

    /// The gate that drives a net.
    pub fn gate(&self, n: NetId) -> Gate
        requires gate { self.now.leaves ≤ n.0 }
        requires below { n.0 < net_count self.now }
        ensures { slice_get self.now.gates (n.0 - self.now.leaves) ≡ Some (gate_form result) }
    {
        self.gates[(n.0 - self.leaves) as usize]
    }

    /// Fills the row with the evaluation: a bit for each net, in order.
    pub fn eval_into(&self, leaves: &[bool], row: &mut [bool])
        requires leaves { length leaves.now ≡ self.now.leaves }
        requires row { length row.old ≡ net_count self.now }
        ensures { IsEvaluation self.now leaves.now (net_bit row.new) }
    {
        row[..leaves.len()].copy_from_slice(leaves);
        self.answer_gates(row);
    }

    /// Fills the part of the row behind the leaves, whose bits are there.
    pub(crate) fn answer_gates(&self, row: &mut [bool])
        requires { length row.old ≡ net_count self.now }
        ensures leaves { take self.now.leaves row.new ≡ take self.now.leaves row.old }
        ensures gates { AnswersWithin self.now self.now.leaves (net_count self.now) (net_bit row.new) }
    {
        let first = self.leaves as usize;
        for (i, gate) in self.gates.iter().enumerate() {
            row[first + i] = gate.answer(row);
        }
    }
}
