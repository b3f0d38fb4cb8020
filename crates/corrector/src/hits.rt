// The error patterns that a word may have, as gates over its syndrome.
ghost use Rattle.std.specs.Prelude.{◌≡◌, ◌+◌, ◌*◌, ◌^◌, ◌<◌, ◌≤◌, ◌&&◌, ◌∷◌, Bool, length, map, IfOk, OnOk};
ghost use Rattle.std.specs.Bool.{beq};
ghost use Rattle.std.specs.List.{AllByRecursion};
ghost use Rattle.netlist_spec.specs.Covers.{has_bit};
ghost use Rattle.netlist_spec.specs.Gates.{bit_number};
ghost use Rattle.gate_net.specs.Gate.{net_number};
ghost use Rattle.gate_net.specs.GateNet.{net_count};
ghost use Rattle.reduction.specs.Appended.{Extends};
ghost use Rattle.corrector.specs.Computed.{AreComputed, IsComputed};
ghost use Rattle.corrector.specs.Hits.{hit_nets, spells};

use block_code::Word;
use distance::Pattern;
use gate_net::{Gate, GateNet, NetId, Op};
use reduction::bit;
use std::alloc::{AllocError, Global};

/// An error pattern, and the net that is 1 where a word has its syndrome.
#[derive(Clone, Copy, Debug)]
pub(crate) struct Hit {
    pub(crate) error: Word,
    pub(crate) net: NetId,
}

/// Appends a net for each pattern that is 1 where these nets have its syndrome.
pub(crate) fn append_hits(
    alloc: Global,
    syndrome: &[NetId],
    pats: &[Pattern],
    net: &mut GateNet,
) -> Result<Vec<Hit>, AllocError>
    requires few { length syndrome.now ≤ 128 }
    requires nets { AllByRecursion (λ n. n < net_count net.old) (map net_number syndrome.now) }
    requires room { net_count net.old + 1 + length pats.now * length syndrome.now ≤ 2 ^ 23 }
    ensures computed { IfOk result
        (λ hits. AreComputed net.old net.new (map net_number syndrome.now) (hit_nets hits.items)
        (λ v. map (λ p. spells p.syndrome.0 (map v (map net_number syndrome.now))) pats.now)) }
    ensures errors { IfOk result
        (λ hits. map (λ h. h.error.0) hits.items ≡ map (λ p. p.error.0) pats.now) }
    ensures cost { OnOk result (net_count net.new
        ≡ net_count net.old + 1 + length pats.now * length syndrome.now) }
    ensures extends { Extends net.old net.new }
{
    let always = net.push(Gate::Const(true))?;
    let mut hits = Vec::new(alloc);
    for pattern in pats {
        let found = append_hit(syndrome, pattern.syndrome, always, net)?;
        hits.push(Hit {
            error: pattern.error,
            net: found,
        })?;
    }
    Ok(hits)
}

// Appends a net that is 1 where net `always` is and these nets have the syndrome.
fn append_hit(
    syndrome: &[NetId],
    wanted: Word,
    always: NetId,
    net: &mut GateNet,
) -> Result<NetId, AllocError>
    requires few { length syndrome.now ≤ 128 }
    requires nets { AllByRecursion (λ n. n < net_count net.old) (always.0 ∷ map net_number syndrome.now) }
    requires room { net_count net.old + length syndrome.now ≤ 2 ^ 23 }
    ensures computed { IfOk result
        (λ n. IsComputed net.old net.new (always.0 ∷ map net_number syndrome.now) n.0
        (λ v. v always.0 && spells wanted.0 (map v (map net_number syndrome.now)))) }
    ensures cost { OnOk result (net_count net.new ≡ net_count net.old + length syndrome.now) }
    ensures extends { Extends net.old net.new }
{
    let mut all = always;
    for (j, n) in syndrome.iter().enumerate() {
        let op = literal(bit(u128::from(wanted.0), j));
        all = net.push(Gate::Two { op, a: all, b: *n })?;
    }
    Ok(all)
}

// The operation that asks for this bit of its second net, and for a 1 of its first.
fn literal(wanted: bool) -> Op
    ensures { (a b : Bool) → has_bit result (2 * bit_number a + bit_number b) ≡ (a && beq b wanted) }
{
    if wanted { Op::AND } else { Op(0b0100) }
}
