// One more net for those that are joined.
ghost use Rattle.std.specs.Prelude.{◌≡◌, ◌≢◌, ◌+◌, ◌*◌, ◌^◌, ◌<◌, ◌≤◌, [], IfOk, OnOk, OnErr, IfSome, IfNone};
ghost use Rattle.std.specs.Option.{ForSome};
ghost use Rattle.netlist_spec.specs.Covers.{has_bit};
ghost use Rattle.netlist_spec.specs.Gates.{bit_number};
ghost use Rattle.gate_net.specs.GateNet.{net_count};
ghost use Rattle.reduction.specs.Appended.{Extends, HasBit, IsAppended, ReadsInputsAlone, bit_so_far, nets_joined};

use gate_net::{Gate, GateNet, NetId, Op};
use std::alloc::AllocError;

/// Appends the gate that joins one more net to those so far: it answers `op` of their bit and the net's bit. Where
/// there are none so far, their bit is `empty`.
pub fn join(
    op: Op,
    empty: bool,
    so_far: Option<NetId>,
    n: NetId,
    net: &mut GateNet,
) -> Result<NetId, AllocError>
    // The first gate is a copy or an inverse.
    requires first { has_bit op (2 * bit_number empty) ≢ has_bit op (2 * bit_number empty + 1) }
    requires so_far { ForSome so_far (λ m. m.0 < net_count net.old) }
    requires n { n.0 < net_count net.old }
    requires room { net_count net.old < 2 ^ 23 }
    ensures number { IfOk result (λ m. m.0 ≡ net_count net.old) }
    ensures bit { IfOk result
        (λ m. HasBit net.old net.new m.0
        (λ v. has_bit op (2 * bit_number (bit_so_far empty so_far v) + bit_number (v n.0)))) }
    ensures reads { ReadsInputsAlone net.old net.new (nets_joined so_far n) }
    ensures ok { OnOk result (net_count net.new ≡ net_count net.old + 1) }
    ensures err { OnErr result (net.new ≡ net.old) }
    ensures extends { Extends net.old net.new }
{
    match so_far {
        Some(m) => net.push(Gate::Two { op, a: m, b: n }),
        None => net.push(Gate::One {
            inv: op.answer(empty, false),
            a: n,
        }),
    }
}

/// The net that the joined ones came to. Where there are none, that is a constant.
pub fn joined(empty: bool, so_far: Option<NetId>, net: &mut GateNet) -> Result<NetId, AllocError>
    requires room { net_count net.old < 2 ^ 23 }
    ensures some { IfSome so_far (λ m. (result ≡ Ok m) × (net.new ≡ net.old)) }
    ensures appended { IfNone so_far (IfOk result (λ m. IsAppended net.old net.new m.0)) }
    ensures bit { IfOk result (λ m. HasBit net.old net.new m.0 (bit_so_far empty so_far)) }
    ensures reads { ReadsInputsAlone net.old net.new [] }
    ensures one { net_count net.new ≤ net_count net.old + 1 }
    ensures extends { Extends net.old net.new }
{
    match so_far {
        Some(m) => Ok(m),
        None => net.push(Gate::Const(empty)),
    }
}
