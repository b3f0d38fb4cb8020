// The xor of some nets.
ghost use Rattle.std.specs.Prelude.{◌≡◌, ◌+◌, ◌^◌, ◌<◌, ◌≤◌, ◌++◌, length, map, OnOk, IfOk};
ghost use Rattle.std.specs.List.{AllByRecursion};
ghost use Rattle.gate_net.specs.Gate.{gate_form, net_number};
ghost use Rattle.gate_net.specs.GateNet.{net_count};
ghost use Rattle.cone_split.specs.Copies.{first_sum, sum_gates};
ghost use Rattle.cone_split.specs.Ranges.{KeepsGates};

use gate_net::{Gate, GateNet, NetId, Op};
use std::alloc::AllocError;

/// Appends the gates of the sum of some nets, and answers the last of them.
pub(crate) fn append_sum(nets: &[NetId], dst: &mut GateNet) -> Result<NetId, AllocError>
    requires nets { AllByRecursion (λ n. n < net_count dst.old) (map net_number nets.now) }
    requires room { net_count dst.old + length nets.now < 2 ^ 23 }
    ensures kept { KeepsGates dst.old dst.new }
    ensures gates { OnOk result (dst.new ≡ record dst.old {
      gates = dst.old.gates ++ sum_gates (net_count dst.old) (map net_number nets.now);
    }) }
    ensures last { IfOk result (λ n. net_count dst.new ≡ n.0 + 1) }
{
    let mut last = dst.push(first_gate(nets))?;
    let rest = &nets[nets.len().min(2)..];
    for n in rest {
        last = dst.push(Gate::Two {
            op: Op::XOR,
            a: last,
            b: *n,
        })?;
    }
    Ok(last)
}

/// The sum of at most the first two nets.
fn first_gate(nets: &[NetId]) -> Gate
    ensures { gate_form result ≡ first_sum (map net_number nets.now) }
{
    match nets {
        [] => Gate::Const(false),
        [n] => Gate::One { inv: false, a: *n },
        [a, b, ..] => Gate::Two {
            op: Op::XOR,
            a: *a,
            b: *b,
        },
    }
}
