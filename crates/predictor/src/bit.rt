// A check bit as one range of gates.
ghost use Rattle.std.specs.Prelude.{◌≡◌, ◌<◌, ◌≤◌, length, map, IfOk};
ghost use Rattle.std.specs.List.{AllByRecursion};
ghost use Rattle.guard_spec.specs.Codes.{IsCode, data_places};
ghost use Rattle.gate_net.specs.Gate.{net_number};
ghost use Rattle.gate_net.specs.GateNet.{net_count};
ghost use Rattle.cone_split.specs.Cones.{HasRoom};
ghost use Rattle.cone_split.specs.Ranges.{IsCopy, KeepsGates};
ghost use Rattle.predictor.specs.Columns.{IsCheckBit, column_roots};

use block_code::Code;
use cone_split::copy_xor;
use gate_net::{GateNet, NetId};
use std::alloc::{AllocError, Global};

/// Appends check bit j of the word whose data bits the roots have, as a copy of their cones: `leaf` has the net that
/// stands for each leaf of `src`. Answers the last gate of the copy, which is new. After want of memory `dst` may have
/// some gates more.
pub fn check_bit(
    alloc: Global,
    src: &GateNet,
    roots: &[NetId],
    leaf: &[NetId],
    code: &Code,
    j: u8,
    dst: &mut GateNet,
) -> Result<NetId, AllocError>
    requires roots { AllByRecursion (λ n. n < net_count src.now) (map net_number roots.now) }
    requires some_place { 1 ≤ length roots.now }
    requires places { length roots.now ≤ data_places code.now }
    requires column { j < code.now.columns }
    requires leaves { length leaf.now ≡ src.now.leaves }
    requires leaf { AllByRecursion (λ n. n < net_count dst.old) (map net_number leaf.now) }
    requires room { HasRoom src.now (column_roots code.now j (map net_number roots.now)) dst.old }
    ensures kept { KeepsGates dst.old dst.new }
    ensures copy { IfOk result (λ n. IsCopy src.now (column_roots code.now j (map net_number roots.now))
        (map net_number leaf.now) dst.old dst.new n.0) }
    ensures check { IfOk result (λ n. IsCheckBit src.now (map net_number roots.now)
        (map net_number leaf.now) code.now j dst.old dst.new n.0) }
{
    let chosen = roots_of_column(alloc, roots, code, j)?;
    copy_xor(alloc, src, &chosen, leaf, dst)
}

/// The roots whose row has a 1 in column j.
fn roots_of_column(
    alloc: Global,
    roots: &[NetId],
    code: &Code,
    j: u8,
) -> Result<Vec<NetId>, AllocError>
    requires places { length roots.now ≤ data_places code.now }
    requires column { j < code.now.columns }
    ensures well_formed { IsCode code.now }
    ensures chosen { IfOk result
        (λ v. map net_number v.items ≡ column_roots code.now j (map net_number roots.now)) }
{
    let columns = code.r();
    prove!(j < columns);
    let mut chosen = Vec::new(alloc);
    for (i, n) in roots.iter().enumerate() {
        if code.row(i as u8) >> j & 1 == 1 {
            chosen.push(*n)?;
        }
    }
    Ok(chosen)
}
