// An S-box as gates: its minterms, and for each output those at which it is 1.
ghost use Rattle.std.specs.Prelude.{◌≡◌, ◌+◌, ◌*◌, ◌^◌, ◌≤◌, ◌<◌, IfOk, length, map};
ghost use Rattle.std.specs.List.{AllByRecursion, range_with_len};
ghost use Rattle.netlist_spec.specs.Covers.{table_value};
ghost use Rattle.netlist_spec.specs.Size.{table_cost};
ghost use Rattle.gate_net.specs.Gate.{net_number};
ghost use Rattle.gate_net.specs.GateNet.{net_count};
ghost use Rattle.reduction.specs.Appended.{Extends, HasBit, HasBits, IsAppended, ReadsInputsAlone};
ghost use Rattle.sbox_table.specs.Tables.{output_bit};

use crate::Table;
use crate::minterms::minterms;
use gate_net::{GateNet, NetId, Op};
use reduction::{bit, join, joined};
use std::alloc::{AllocError, Global};

/// Appends gates for an S-box, and answers the net of each output.
pub fn lower(
    alloc: Global,
    table: &Table,
    ins: &[NetId],
    net: &mut GateNet,
) -> Result<Vec<NetId>, AllocError>
    requires inputs { length ins.now ≡ table.now.ins }
    requires nets { AllByRecursion (λ n. n < net_count net.old) (map net_number ins.now) }
    requires room { net_count net.old + table_cost table.now ≤ 2 ^ 23 }
    ensures appended { IfOk result
        (λ outs. AllByRecursion (IsAppended net.old net.new) (map net_number outs.items)) }
    ensures count { IfOk result (λ outs. length outs.items ≡ table.now.outs) }
    ensures values { IfOk result
        (λ outs. HasBits net.old net.new (map net_number outs.items)
        (λ v. map (table_value table.now (map v (map net_number ins.now)))
        (range_with_len 0 table.now.outs))) }
    ensures cost { net_count net.new ≤ net_count net.old + table_cost table.now }
    ensures reads { ReadsInputsAlone net.old net.new (map net_number ins.now) }
    ensures extends { Extends net.old net.new }
{
    prove!(table.ins <= 8 && table.outs <= 8);
    let terms = minterms(alloc, ins, net)?;
    outputs(alloc, &table.rows, table.outs, &terms, net)
}

// The net of each output, in order, from those of the minterms.
fn outputs(
    alloc: Global,
    rows: &[u16],
    count: u8,
    terms: &[NetId],
    net: &mut GateNet,
) -> Result<Vec<NetId>, AllocError>
    requires count { count ≤ 8 }
    requires terms { length terms.now ≡ length rows.now }
    requires nets { AllByRecursion (λ n. n < net_count net.old) (map net_number terms.now) }
    requires room { net_count net.old + count * (length rows.now + 1) ≤ 2 ^ 23 }
    ensures appended { IfOk result
        (λ outs. AllByRecursion (IsAppended net.old net.new) (map net_number outs.items)) }
    ensures count { IfOk result (λ outs. length outs.items ≡ count) }
    ensures values { IfOk result
        (λ outs. HasBits net.old net.new (map net_number outs.items)
        (λ v. map (output_bit rows.now (map v (map net_number terms.now))) (range_with_len 0 count))) }
    ensures cost { net_count net.new ≤ net_count net.old + count * (length rows.now + 1) }
    ensures reads { ReadsInputsAlone net.old net.new (map net_number terms.now) }
    ensures extends { Extends net.old net.new }
{
    let mut outs = Vec::new(alloc);
    for j in 0..usize::from(count) {
        outs.push(output(rows, j, terms, net)?)?;
    }
    Ok(outs)
}

// Some minterm at which output j is 1.
fn output(rows: &[u16], j: usize, terms: &[NetId], net: &mut GateNet) -> Result<NetId, AllocError>
    requires output { j < 8 }
    requires terms { length terms.now ≡ length rows.now }
    requires nets { AllByRecursion (λ n. n < net_count net.old) (map net_number terms.now) }
    requires room { net_count net.old + length rows.now + 1 ≤ 2 ^ 23 }
    ensures appended { IfOk result (λ n. IsAppended net.old net.new n.0) }
    ensures value { IfOk result
        (λ n. HasBit net.old net.new n.0
        (λ v. output_bit rows.now (map v (map net_number terms.now)) j)) }
    ensures cost { net_count net.new ≤ net_count net.old + length rows.now + 1 }
    ensures reads { ReadsInputsAlone net.old net.new (map net_number terms.now) }
    ensures extends { Extends net.old net.new }
{
    let mut any = None;
    for (k, row) in rows.iter().enumerate() {
        if bit(u128::from(*row), j) {
            any = Some(join(Op::OR, false, any, terms[k], net)?);
        }
    }
    joined(false, any, net)
}
