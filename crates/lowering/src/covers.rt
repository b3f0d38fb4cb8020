// A `.names` as gates.
ghost use Rattle.std.specs.Prelude.{◌≡◌, ◌+◌, ◌^◌, ◌<◌, ◌≤◌, length, map, slice_index, All, IfOk, OnOk};
ghost use Rattle.std.specs.List.{AllByRecursion};
ghost use Rattle.netlist_spec.specs.Covers.{cover_value};
ghost use Rattle.netlist_spec.specs.Size.{cover_cost};
ghost use Rattle.gate_net.specs.Gate.{net_number};
ghost use Rattle.gate_net.specs.GateNet.{net_count};
ghost use Rattle.reduction.specs.Appended.{Extends, HasBit, IsAppended, ReadsInputsAlone};
ghost use Rattle.blif_read.specs.View.{cover_of};
ghost use Rattle.lowering.specs.Numbers.{IsWithin, NotesCover, nets_for};

use crate::narrow::gate_of_cover;
use blif_read::{Cover, NameId};
use gate_net::{GateNet, NetId};
use std::alloc::{AllocError, Global};

// The net of a name.
pub(crate) fn net_of(table: &[u32], id: NameId) -> NetId
    requires { IsWithin table.now id }
    ensures { net_number result ≡ slice_index table.now id.0 }
{
    NetId(table[id.0 as usize])
}

// The nets of some names.
fn nets_of(alloc: Global, table: &[u32], ids: &[NameId]) -> Result<Vec<NetId>, AllocError>
    requires { All (IsWithin table.now) ids.now }
    ensures { IfOk result (λ nets. map net_number nets.items ≡ nets_for table.now ids.now) }
{
    let mut nets = Vec::new(alloc);
    for id in ids {
        nets.push(net_of(table, *id))?;
    }
    Ok(nets)
}

// Appends gates for a cover, of which one is enough where it has at most two inputs, and answers the net that has its value.
fn cover_net(cover: &Cover, ins: &[NetId], net: &mut GateNet) -> Result<NetId, AllocError>
    requires inputs { length ins.now ≤ 16 }
    requires nets { AllByRecursion (λ n. n < net_count net.old) (map net_number ins.now) }
    requires room { net_count net.old + cover_cost (length ins.now) (length cover.now.rows.items)
        ≤ 2 ^ 23 }
    ensures appended { IfOk result (λ n. IsAppended net.old net.new n.0) }
    ensures value { IfOk result
        (λ n. HasBit net.old net.new n.0
        (λ v. cover_value (cover_of cover.now) (map v (map net_number ins.now)))) }
    ensures cost { net_count net.new
        ≤ net_count net.old + cover_cost (length ins.now) (length cover.now.rows.items) }
    ensures reads { ReadsInputsAlone net.old net.new (map net_number ins.now) }
    ensures extends { Extends net.old net.new }
{
    if ins.len() > 2 {
        return cover::lower(cover, ins, net);
    }
    net.push(gate_of_cover(cover, ins))
}

/// Appends gates for a cover that reads the nets of these names, and notes the net that has its value.
pub(crate) fn lower_names(
    alloc: Global,
    ins: &[NameId],
    out: NameId,
    cover: &Cover,
    table: &mut [u32],
    net: &mut GateNet,
) -> Result<(), AllocError>
    requires inputs { length ins.now ≤ 16 }
    requires within { All (IsWithin table.old) ins.now }
    requires out { IsWithin table.old out }
    requires nets { AllByRecursion (λ n. n < net_count net.old) (nets_for table.old ins.now) }
    requires room { net_count net.old + cover_cost (length ins.now) (length cover.now.rows.items)
        ≤ 2 ^ 23 }
    ensures { OnOk result
        (NotesCover (nets_for table.old ins.now) (cover_of cover.now) out.0 net.old table.old net.new table.new) }
{
    let nets = nets_of(alloc, table, ins)?;
    let n = cover_net(cover, &nets, net)?;
    table[out.0 as usize] = n.0;
    Ok(())
}
