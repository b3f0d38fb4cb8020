// A machine out of whose gates the bits of a guard in correction are copied.
ghost use Rattle.std.specs.Prelude.{◌≡◌, ℕ, ◌*◌, ◌<◌, ◌≤◌, length, map, IfOk};
ghost use Rattle.std.specs.List.{AllZip, range_with_len};
ghost use Rattle.guard_spec.specs.Codes.{Code as CheckMatrix, IsDistance, correct, data_places};
ghost use Rattle.guard_spec.specs.Plain.{IsMachineSizeWith};
ghost use Rattle.guard_spec.specs.Words.{IsPartition, Layout as GuardLayout};
ghost use Rattle.gate_net.specs.Gate.{net_number};
ghost use Rattle.gate_net.specs.Machine.{latch_row};
ghost use Rattle.correction_laws.specs.FromJoined.{IsOver};
ghost use Rattle.joined_net.specs.Ready.{IsReadyToCopy};
ghost use Rattle.correction_net.specs.StandIn.{StandsIn};

use block_code::Code;
use encode_state::types::Layout;
use gate_net::{LatchRow, Machine, NetId};
use joined_net::{Joined, join, over};
use std::alloc::{AllocError, Global};

/// The nets below a count.
pub(crate) fn nets_below(alloc: Global, count: u32) -> Result<Vec<NetId>, AllocError>
    ensures { IfOk result (λ nets. map net_number nets.items ≡ range_with_len 0 count) }
{
    let mut nets = Vec::new(alloc);
    for n in 0..count {
        nets.push(NetId(n))?;
    }
    Ok(nets)
}

// The latches of the source, each with the net that stands for its D net.
fn rows_over(alloc: Global, m: &Machine, j: &Joined) -> Result<Vec<LatchRow>, AllocError>
    requires ready { (code : CheckMatrix) × (l : GuardLayout) × (t : ℕ)
        × IsReadyToCopy m.now code l t j.now.net (map net_number j.now.nets.items) j.now.first }
    ensures stores { IfOk result (λ rows. AllZip (IsOver m.now (map net_number j.now.nets.items) j.now.first)
        (map (λ r. r.d) m.now.latches) (map (λ r. r.d) (map latch_row rows.items))) }
    ensures inits { IfOk result (λ rows. map (λ r. r.init) (map latch_row rows.items) ≡ map (λ r. r.init) m.now.latches) }
{
    let mut rows = Vec::new(alloc);
    for row in &m.latches {
        let d = over(m, j, row.d);
        let init = row.init;
        rows.push(LatchRow { d, init })?;
    }
    Ok(rows)
}

// The nets that stand for the outputs of the source.
fn outputs_over(alloc: Global, m: &Machine, j: &Joined) -> Result<Vec<NetId>, AllocError>
    requires ready { (code : CheckMatrix) × (l : GuardLayout) × (t : ℕ)
        × IsReadyToCopy m.now code l t j.now.net (map net_number j.now.nets.items) j.now.first }
    ensures { IfOk result (λ nets. AllZip (IsOver m.now (map net_number j.now.nets.items) j.now.first) m.now.outputs (map net_number nets.items)) }
{
    let mut nets = Vec::new(alloc);
    for o in &m.outputs {
        nets.push(over(m, j, *o))?;
    }
    Ok(nets)
}

/// A machine that stands for the source, over the leaves of its guard: correctors of state words, and all gates over
/// corrected nets.
pub(crate) fn stand_in(
    alloc: Global,
    m: &Machine,
    l: &Layout,
    c: &Code,
    t: u8,
) -> Result<Machine, AllocError>
    requires state { IsPartition (length m.now.latches) (data_places c.now) l.now.state }
    requires output { IsPartition (length m.now.outputs) (data_places c.now) l.now.output }
    requires inputs { m.now.inputs ≤ 4096 }
    requires gates { length m.now.net.gates ≤ 1000000 }
    requires distance { (d : ℕ) × IsDistance c.now d × (2 * t < d) }
    requires size { (n : ℕ) × IsMachineSizeWith m.now c.now correct t 0 l.now n × (n ≤ 1000000) }
    ensures { IfOk result (λ stand. StandsIn m.now c.now l.now t stand) }
{
    // So that it is known for a machine.
    let _inputs = m.inputs;
    let joined = join(alloc, m, l, c, t)?;
    // So that there are few nets.
    let _nets = joined.net.len();
    let latches = rows_over(alloc, m, &joined)?;
    let outputs = outputs_over(alloc, m, &joined)?;
    let Joined {
        net,
        nets: _,
        first: _,
    } = joined;
    let inputs = net.leaves() - latches.len() as u32;
    Ok(Machine {
        net,
        inputs,
        latches,
        outputs,
    })
}
