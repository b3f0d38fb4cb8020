// The syndrome of a word as gates.
ghost use Rattle.std.specs.Prelude.{◌≡◌, ◌+◌, ◌^◌, ◌<◌, ◌≤◌, ◌∷◌, length, map, IfOk, OnOk};
ghost use Rattle.std.specs.List.{AllByRecursion};
ghost use Rattle.netlist_spec.specs.Covers.{differ, parity};
ghost use Rattle.guard_spec.specs.Codes.{IsCode, data_places, syndrome_of};
ghost use Rattle.guard_spec.specs.Plain.{ones};
ghost use Rattle.gate_net.specs.Gate.{net_number};
ghost use Rattle.gate_net.specs.GateNet.{net_count};
ghost use Rattle.gate_net.specs.Words.{nets_of, word_nets};
ghost use Rattle.predictor.specs.Columns.{column_roots};
ghost use Rattle.reduction.specs.Appended.{Extends};
ghost use Rattle.corrector.specs.Computed.{AreComputed, IsComputed};

use arrayvec::ArrayVec;
use block_code::Code;
use gate_net::{Gate, GateNet, NetId, Op, WordNets};
use reduction::bit;
use std::alloc::AllocError;

/// Appends the syndrome of a word, and answers a net for each of its bits.
pub(crate) fn append_syndrome(
    word: &WordNets,
    code: &Code,
    net: &mut GateNet,
) -> Result<ArrayVec<NetId, 16>, AllocError>
    requires places { length word.now.places.items ≤ data_places code.now }
    requires checks { length word.now.checks.items ≡ code.now.columns }
    requires nets { AllByRecursion (λ n. n < net_count net.old) (nets_of (word_nets word.now)) }
    requires room { net_count net.old + ones code.now (length word.now.places.items) ≤ 2 ^ 23 }
    ensures well_formed { IsCode code.now }
    ensures computed { IfOk result
        (λ s. AreComputed net.old net.new (nets_of (word_nets word.now)) (map net_number s.items)
        (λ v. syndrome_of code.now (length word.now.places.items) (map v (nets_of (word_nets word.now))))) }
    ensures count { IfOk result (λ s. length s.items ≡ code.now.columns) }
    ensures cost { OnOk result
        (net_count net.new ≤ net_count net.old + ones code.now (length word.now.places.items)) }
    ensures extends { Extends net.old net.new }
{
    let columns = code.r() as usize;
    let mut bits = ArrayVec::new();
    for (j, check) in word.checks.iter().enumerate() {
        prove!(j < columns);
        bits.push(append_syndrome_bit(&word.places, code, j as u8, *check, net)?);
    }
    Ok(bits)
}

// Appends the sum of a check place and of the places whose row has a 1 in column j, and answers the net that has it.
fn append_syndrome_bit(
    places: &[NetId],
    code: &Code,
    j: u8,
    check: NetId,
    net: &mut GateNet,
) -> Result<NetId, AllocError>
    requires places { length places.now ≤ data_places code.now }
    requires column { j < code.now.columns }
    requires nets { AllByRecursion (λ n. n < net_count net.old) (check.0 ∷ map net_number places.now) }
    requires room { net_count net.old
        + length (column_roots code.now j (map net_number places.now)) ≤ 2 ^ 23 }
    ensures computed { IfOk result
        (λ n. IsComputed net.old net.new (check.0 ∷ map net_number places.now) n.0
        (λ v. differ (v check.0) (parity (map v (column_roots code.now j (map net_number places.now)))))) }
    ensures cost { OnOk result (net_count net.new
        ≡ net_count net.old + length (column_roots code.now j (map net_number places.now))) }
    ensures extends { Extends net.old net.new }
{
    let columns = code.r();
    prove!(j < columns);
    let mut sum = check;
    for (i, n) in places.iter().enumerate() {
        if bit(u128::from(code.row(i as u8)), j as usize) {
            sum = net.push(Gate::Two {
                op: Op::XOR,
                a: sum,
                b: *n,
            })?;
        }
    }
    Ok(sum)
}
