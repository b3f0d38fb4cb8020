//! Correctors of the state words that a source needs, and the source's gates over the corrected nets, in one gate list.
#![tactic(auto)]

ghost use Rattle.std.specs.Prelude.{ℕ, ◌*◌, ◌<◌, ◌≤◌, length, map, IfOk};
ghost use Rattle.guard_spec.specs.Codes.{Code as CheckMatrix, IsDistance, correct, data_places};
ghost use Rattle.guard_spec.specs.Plain.{IsMachineSizeWith};
ghost use Rattle.guard_spec.specs.Words.{IsPartition, Layout as GuardLayout};
ghost use Rattle.gate_net.specs.Gate.{net_number};
ghost use Rattle.gate_net.specs.GateNet.{net_count};
ghost use Rattle.correction_laws.specs.FromJoined.{IsOver};
ghost use Rattle.joined_net.specs.Ready.{IsReadyToCopy};

mod correctors;
mod marks;

use crate::correctors::{correct_state, leaf_count, leaf_nets};
use crate::marks::needed_nets;
use block_code::Code;
use cone_split::copy_all;
use correction_laws::needed_correctors_have_room;
use encode_state::types::Layout;
use gate_net::{GateNet, Machine, NetId};
use std::alloc::{AllocError, Global};

/// A gate list over the leaves of a guard: correctors of state words, then all gates of the source's machine.
#[derive(Drop)]
pub struct Joined {
    pub net: GateNet,
    /// For each latch of the source the net that has its corrected bit.
    pub nets: Vec<NetId>,
    /// The net of the source's first gate.
    pub first: u32,
}

/// Correctors of the words that some D net or output needs, and all gates over the corrected nets.
pub fn join(alloc: Global, m: &Machine, l: &Layout, c: &Code, t: u8) -> Result<Joined, AllocError>
    requires state { IsPartition (length m.now.latches) (data_places c.now) l.now.state }
    requires output { IsPartition (length m.now.outputs) (data_places c.now) l.now.output }
    requires inputs { m.now.inputs ≤ 4096 }
    requires gates { length m.now.net.gates ≤ 1000000 }
    requires distance { (d : ℕ) × IsDistance c.now d × (2 * t < d) }
    requires size { (n : ℕ) × IsMachineSizeWith m.now c.now correct t 0 l.now n × (n ≤ 1000000) }
    ensures { IfOk result (λ j. IsReadyToCopy m.now c.now l.now t j.net (map net_number j.nets.items) j.first) }
{
    needed_correctors_have_room();
    let marks = needed_nets(alloc, m)?;
    let leaves = leaf_count(m.inputs, &l.state, u32::from(c.r()));
    let mut net = GateNet::new(alloc, leaves)?;
    let nets = correct_state(alloc, m, l, &marks, c, t, &mut net)?;
    let first = net.len();
    let leaf = leaf_nets(alloc, m.inputs, &nets)?;
    copy_all(alloc, &m.net, &leaf, &mut net)?;
    // Each gate reads lower nets.
    let _nets = net.len();
    Ok(Joined { net, nets, first })
}

/// The net that stands for a net of the source: a data input for itself, a latch's corrected net for the latch, and a gate's
/// copy for the gate.
pub fn over(m: &Machine, j: &Joined, x: NetId) -> NetId
    requires net { x.0 < net_count m.now.net }
    requires ready { (code : CheckMatrix) × (l : GuardLayout) × (t : ℕ)
        × IsReadyToCopy m.now code l t j.now.net (map net_number j.now.nets.items) j.now.first }
    ensures { IsOver m.now (map net_number j.now.nets.items) j.now.first x.0 result.0 }
{
    // So that there are few nets.
    let _nets = j.net.len();
    let leaves = m.net.leaves();
    if x.0 < m.inputs {
        return x;
    }
    if x.0 < leaves {
        return j.nets[(x.0 - m.inputs) as usize];
    }
    NetId(j.first + (x.0 - leaves))
}
