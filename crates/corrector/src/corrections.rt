// A corrector of a word as one range of gates.
ghost use Rattle.std.specs.Prelude.{◌≡◌, ℕ, ◌+◌, ◌*◌, ◌^◌, ◌<◌, ◌≤◌, ◌++◌, ◌||◌, ◌&&◌, ◌∷◌, Bool, count_by, length, map, IfOk, OnOk};
ghost use Rattle.std.specs.List.{AllByRecursion, enumerate_from};
ghost use Rattle.netlist_spec.specs.Covers.{differ, has_bit};
ghost use Rattle.guard_spec.specs.Codes.{ArePatterns, IsDistance, data_places};
ghost use Rattle.guard_spec.specs.Plain.{corrector_cost};
ghost use Rattle.gate_net.specs.Gate.{net_number};
ghost use Rattle.gate_net.specs.GateNet.{net_count};
ghost use Rattle.gate_net.specs.Words.{nets_of, word_nets};
ghost use Rattle.cone_split.specs.Ranges.{KeepsGates};
ghost use Rattle.distance.specs.Patterns.{pattern_of};
ghost use Rattle.reduction.specs.Appended.{Extends};
ghost use Rattle.corrector.specs.Computed.{AreComputed, IsComputed};
ghost use Rattle.corrector.specs.Corrected.{IsCorrectorRange};
ghost use Rattle.corrector.specs.Hits.{hit_nets, hits_at, some_hit};

use crate::hits::{Hit, append_hits};
use crate::syndromes::append_syndrome;
use arrayvec::ArrayVec;
use block_code::Code;
use distance::Pattern;
use gate_net::{Gate, GateNet, NetId, Op, WordNets};
use reduction::bit;
use std::alloc::{AllocError, Global};

/// Appends a corrector of a word: gates that have the data of the codeword within t of the word, where there is one, and
/// answers the net of each data place. `pats` are the patterns of 1 to t errors in a word of that many places: the
/// corrector looks for the one with the word's syndrome, and turns the data places at which it has an error. After
/// want of memory `dst` may have some gates more. The work grows with the patterns times the places of the word.
pub fn corrected(
    alloc: Global,
    word: &WordNets,
    code: &Code,
    t: u8,
    pats: &[Pattern],
    dst: &mut GateNet,
) -> Result<ArrayVec<NetId, 12>, AllocError>
    requires some_place { 1 ≤ length word.now.places.items }
    requires places { length word.now.places.items ≤ data_places code.now }
    requires checks { length word.now.checks.items ≡ code.now.columns }
    requires nets { AllByRecursion (λ n. n < net_count dst.old) (nets_of (word_nets word.now)) }
    requires distance { (d : ℕ) × IsDistance code.now d × (2 * t < d) }
    requires patterns { ArePatterns code.now (length word.now.places.items) t
        (map (pattern_of (length word.now.places.items + code.now.columns) code.now.columns) pats.now) }
    requires room { net_count dst.old + corrector_cost code.now t (length word.now.places.items) ≤ 2 ^ 23 }
    ensures kept { KeepsGates dst.old dst.new }
    ensures corrected { IfOk result
        (λ nets. IsCorrectorRange code.now t (word_nets word.now) dst.old dst.new (map net_number nets.items)) }
{
    let syndrome = append_syndrome(word, code, dst)?;
    let hits = append_hits(alloc, &syndrome, pats, dst)?;
    let nets = append_corrections(&word.places, &hits, dst)?;
    // Each gate reads nets of the list.
    prove!(dst.len() > 0);
    Ok(nets)
}

// Appends a net for each place: its bit, turned if some hit with an error there is 1.
fn append_corrections(
    places: &[NetId],
    hits: &[Hit],
    net: &mut GateNet,
) -> Result<ArrayVec<NetId, 12>, AllocError>
    requires few { length places.now ≤ 12 }
    requires nets { AllByRecursion (λ n. n < net_count net.old)
        (map net_number places.now ++ hit_nets hits.now) }
    requires room { net_count net.old + 1 + length places.now + hits_at (length places.now) hits.now ≤ 2 ^ 23 }
    ensures computed { IfOk result
        (λ nets. AreComputed net.old net.new (map net_number places.now ++ hit_nets hits.now) (map net_number nets.items)
        (λ v. map (λ (p : ℕ × Bool). differ p.1 (some_hit p.0 hits.now v)) (enumerate_from 0 (map v (map net_number places.now))))) }
    ensures count { IfOk result (λ nets. length nets.items ≡ length places.now) }
    ensures cost { OnOk result (net_count net.new
        ≡ net_count net.old + 1 + length places.now + hits_at (length places.now) hits.now) }
    ensures extends { Extends net.old net.new }
{
    let never = net.push(Gate::Const(false))?;
    let mut nets = ArrayVec::new();
    for (i, place) in places.iter().enumerate() {
        let error = append_error(i, hits, never, net)?;
        let turned = net.push(Gate::Two {
            op: Op::XOR,
            a: error,
            b: *place,
        })?;
        nets.push(turned);
    }
    Ok(nets)
}

// Appends a net that is 1 where net `never` is, or some hit with an error at place i.
fn append_error(
    i: usize,
    hits: &[Hit],
    never: NetId,
    net: &mut GateNet,
) -> Result<NetId, AllocError>
    requires place { i < 128 }
    requires nets { AllByRecursion (λ n. n < net_count net.old) (never.0 ∷ hit_nets hits.now) }
    requires room { net_count net.old + count_by (λ h. has_bit h.error.0 i) hits.now ≤ 2 ^ 23 }
    ensures computed { IfOk result
        (λ n. IsComputed net.old net.new (never.0 ∷ hit_nets hits.now) n.0
        (λ v. v never.0 || some_hit i hits.now v)) }
    ensures cost { OnOk result (net_count net.new
        ≡ net_count net.old + count_by (λ h. has_bit h.error.0 i) hits.now) }
    ensures extends { Extends net.old net.new }
{
    let mut error = never;
    for hit in hits {
        if bit(u128::from(hit.error.0), i) {
            error = net.push(Gate::Two {
                op: Op::OR,
                a: error,
                b: hit.net,
            })?;
        }
    }
    Ok(error)
}
