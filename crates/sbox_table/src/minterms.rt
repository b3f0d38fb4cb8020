// The minterms of some inputs: for each number that they may spell, a net that is 1 exactly where they spell it.
ghost use Rattle.std.specs.Prelude.{◌≡◌, ◌+◌, ◌*◌, ◌^◌, ◌≤◌, ◌<◌, ◌∷◌, ◌++◌, ◌&&◌, ◌==◌, IfOk, not, length, map};
ghost use Rattle.std.specs.List.{AllByRecursion, range_with_len};
ghost use Rattle.netlist_spec.specs.Covers.{has_bit, number_of};
ghost use Rattle.netlist_spec.specs.Gates.{bit_number};
ghost use Rattle.gate_net.specs.Gate.{net_number};
ghost use Rattle.gate_net.specs.GateNet.{net_count};
ghost use Rattle.reduction.specs.Appended.{Extends, HasBits, IsAppended, ReadsInputsAlone};

use gate_net::{Gate, GateNet, NetId, Op};
use std::alloc::{AllocError, Global};

/// Appends the minterms, in the order of their numbers. Input 0 is the lowest bit.
pub(crate) fn minterms(
    alloc: Global,
    ins: &[NetId],
    net: &mut GateNet,
) -> Result<Vec<NetId>, AllocError>
    requires inputs { length ins.now ≤ 8 }
    requires nets { AllByRecursion (λ n. n < net_count net.old) (map net_number ins.now) }
    requires room { net_count net.old + 2 * 2 ^ length ins.now ≤ 2 ^ 23 }
    ensures appended { IfOk result
        (λ all. AllByRecursion (IsAppended net.old net.new) (map net_number all.items)) }
    ensures count { IfOk result (λ all. length all.items ≡ 2 ^ length ins.now) }
    ensures values { IfOk result
        (λ all. HasBits net.old net.new (map net_number all.items)
        (λ v. map (λ k. number_of (map v (map net_number ins.now)) == k)
        (range_with_len 0 (2 ^ length ins.now)))) }
    ensures cost { net_count net.new < net_count net.old + 2 * 2 ^ length ins.now }
    ensures reads { ReadsInputsAlone net.old net.new (map net_number ins.now) }
    ensures extends { Extends net.old net.new }
{
    let mut all = Vec::new(alloc);
    all.push(net.push(Gate::Const(true))?)?;
    for n in ins {
        all = with_input(alloc, &all, *n, net)?;
    }
    Ok(all)
}

// The minterms with one more input: first those where it is 0.
fn with_input(
    alloc: Global,
    terms: &[NetId],
    n: NetId,
    net: &mut GateNet,
) -> Result<Vec<NetId>, AllocError>
    requires terms { AllByRecursion (λ m. m < net_count net.old) (map net_number terms.now) }
    requires n { n.0 < net_count net.old }
    requires room { net_count net.old + 2 * length terms.now ≤ 2 ^ 23 }
    ensures appended { IfOk result
        (λ all. AllByRecursion (IsAppended net.old net.new) (map net_number all.items)) }
    ensures count { IfOk result (λ all. length all.items ≡ 2 * length terms.now) }
    ensures values { IfOk result
        (λ all. HasBits net.old net.new (map net_number all.items)
        (λ v. map (λ b. b && not (v n.0)) (map v (map net_number terms.now))
        ++ map (λ b. b && v n.0) (map v (map net_number terms.now)))) }
    ensures cost { net_count net.new ≤ net_count net.old + 2 * length terms.now }
    ensures reads { ReadsInputsAlone net.old net.new (n.0 ∷ map net_number terms.now) }
    ensures extends { Extends net.old net.new }
{
    let mut all = products(alloc, Op(0b0100), terms, n, net)?;
    let high = products(alloc, Op::AND, terms, n, net)?;
    all.extend_from_slice(&high)?;
    Ok(all)
}

// The answers of an operation for each term and the input.
fn products(
    alloc: Global,
    op: Op,
    terms: &[NetId],
    n: NetId,
    net: &mut GateNet,
) -> Result<Vec<NetId>, AllocError>
    requires terms { AllByRecursion (λ m. m < net_count net.old) (map net_number terms.now) }
    requires n { n.0 < net_count net.old }
    requires room { net_count net.old + length terms.now ≤ 2 ^ 23 }
    ensures appended { IfOk result
        (λ all. AllByRecursion (IsAppended net.old net.new) (map net_number all.items)) }
    ensures count { IfOk result (λ all. length all.items ≡ length terms.now) }
    ensures values { IfOk result
        (λ all. HasBits net.old net.new (map net_number all.items)
        (λ v. map (λ b. has_bit op (2 * bit_number b + bit_number (v n.0)))
        (map v (map net_number terms.now)))) }
    ensures cost { net_count net.new ≤ net_count net.old + length terms.now }
    ensures reads { ReadsInputsAlone net.old net.new (n.0 ∷ map net_number terms.now) }
    ensures extends { Extends net.old net.new }
{
    let mut all = Vec::new(alloc);
    for m in terms {
        all.push(net.push(Gate::Two { op, a: *m, b: n })?)?;
    }
    Ok(all)
}
