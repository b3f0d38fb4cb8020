// A linear layer as gates: a parity for each row.
ghost use Rattle.std.specs.Prelude.{◌≡◌, ◌+◌, ◌^◌, ◌≤◌, ◌<◌, IfOk, count_ones, length, map, sum_by};
ghost use Rattle.std.specs.List.{AllByRecursion, range_with_len};
ghost use Rattle.netlist_spec.specs.Covers.{linear_value, parity, selected};
ghost use Rattle.netlist_spec.specs.Size.{linear_cost};
ghost use Rattle.gate_net.specs.Gate.{net_number};
ghost use Rattle.gate_net.specs.GateNet.{net_count};
ghost use Rattle.reduction.specs.Appended.{Extends, HasBit, HasBits, IsAppended, ReadsInputsAlone};

use crate::Linear;
use gate_net::{GateNet, NetId, Op};
use reduction::{bit, join, joined};
use std::alloc::{AllocError, Global};

/// Appends gates for a linear layer, and answers the net of each row.
pub fn lower(
    alloc: Global,
    layer: &Linear,
    ins: &[NetId],
    net: &mut GateNet,
) -> Result<Vec<NetId>, AllocError>
    requires inputs { length ins.now ≡ layer.now.width }
    requires nets { AllByRecursion (λ n. n < net_count net.old) (map net_number ins.now) }
    requires room { net_count net.old + linear_cost layer.now ≤ 2 ^ 23 }
    ensures appended { IfOk result
        (λ outs. AllByRecursion (IsAppended net.old net.new) (map net_number outs.items)) }
    ensures count { IfOk result (λ outs. length outs.items ≡ length layer.now.rows) }
    ensures values { IfOk result
        (λ outs. HasBits net.old net.new (map net_number outs.items)
        (λ v. map (linear_value layer.now (map v (map net_number ins.now)))
        (range_with_len 0 (length layer.now.rows)))) }
    ensures cost { net_count net.new ≤ net_count net.old + linear_cost layer.now }
    ensures reads { ReadsInputsAlone net.old net.new (map net_number ins.now) }
    ensures extends { Extends net.old net.new }
{
    prove!(layer.width <= 128);
    parities(alloc, &layer.rows, ins, net)
}

// The net of each row, in order.
fn parities(
    alloc: Global,
    rows: &[u128],
    ins: &[NetId],
    net: &mut GateNet,
) -> Result<Vec<NetId>, AllocError>
    requires inputs { length ins.now ≤ 128 }
    requires nets { AllByRecursion (λ n. n < net_count net.old) (map net_number ins.now) }
    requires room { net_count net.old + sum_by count_ones rows.now + length rows.now ≤ 2 ^ 23 }
    ensures appended { IfOk result
        (λ outs. AllByRecursion (IsAppended net.old net.new) (map net_number outs.items)) }
    ensures count { IfOk result (λ outs. length outs.items ≡ length rows.now) }
    ensures values { IfOk result
        (λ outs. HasBits net.old net.new (map net_number outs.items)
        (λ v. map (λ row. parity (selected row (map v (map net_number ins.now)))) rows.now)) }
    ensures cost { net_count net.new
        ≤ net_count net.old + sum_by count_ones rows.now + length rows.now }
    ensures reads { ReadsInputsAlone net.old net.new (map net_number ins.now) }
    ensures extends { Extends net.old net.new }
{
    let mut outs = Vec::new(alloc);
    for row in rows {
        outs.push(parity_of(*row, ins, net)?)?;
    }
    Ok(outs)
}

// The parity of the inputs at which the row has a 1.
fn parity_of(row: u128, ins: &[NetId], net: &mut GateNet) -> Result<NetId, AllocError>
    requires inputs { length ins.now ≤ 128 }
    requires nets { AllByRecursion (λ n. n < net_count net.old) (map net_number ins.now) }
    requires room { net_count net.old + count_ones row + 1 ≤ 2 ^ 23 }
    ensures appended { IfOk result (λ n. IsAppended net.old net.new n.0) }
    ensures value { IfOk result
        (λ n. HasBit net.old net.new n.0
        (λ v. parity (selected row (map v (map net_number ins.now))))) }
    ensures cost { net_count net.new ≤ net_count net.old + count_ones row + 1 }
    ensures reads { ReadsInputsAlone net.old net.new (map net_number ins.now) }
    ensures extends { Extends net.old net.new }
{
    let mut sum = None;
    for (j, n) in ins.iter().enumerate() {
        if bit(row, j) {
            sum = Some(join(Op::XOR, false, sum, *n, net)?);
        }
    }
    joined(false, sum, net)
}
