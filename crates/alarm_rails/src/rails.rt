// A rail over some words.
ghost use Rattle.std.specs.Prelude.{◌≡◌, ◌+◌, ◌^◌, ◌<◌, ◌≤◌, ◌∷◌, ◌++◌, length, map, IfOk, OnOk};
ghost use Rattle.std.specs.List.{AllByRecursion, flat_map};
ghost use Rattle.guard_spec.specs.Codes.{IsCode, data_places};
ghost use Rattle.gate_net.specs.Gate.{net_number};
ghost use Rattle.gate_net.specs.GateNet.{net_count};
ghost use Rattle.gate_net.specs.Words.{nets_of, word_nets};
ghost use Rattle.cone_split.specs.Ranges.{KeepsGates};
ghost use Rattle.predictor.specs.Columns.{column_roots};
ghost use Rattle.alarm_rails.specs.Rail.{FitsCode, IsRail, rail_cells};
ghost use Rattle.alarm_rails.specs.Syndromes.{added_gates, alarm_gates, rail_gates, syndrome_bits, whole_sum};

use block_code::Code;
use gate_net::{Gate, GateNet, NetId, Op, WordNets};
use std::alloc::AllocError;

/// Appends a rail: gates of which the last is 1 exactly where some word is no codeword, and answers that last one. A word
/// of m data places uses the first m rows of the check matrix. After want of memory `dst` may have some gates more. The
/// work grows with the places and columns of the words, and not with the rest of `dst`.
pub fn rail(words: &[WordNets], code: &Code, dst: &mut GateNet) -> Result<NetId, AllocError>
    requires words { AllByRecursion (FitsCode code.now) (map word_nets words.now) }
    requires nets { AllByRecursion (λ n. n < net_count dst.old)
        (flat_map nets_of (map word_nets words.now)) }
    requires room { net_count dst.old + rail_cells code.now (map word_nets words.now) ≤ 2 ^ 23 }
    ensures kept { KeepsGates dst.old dst.new }
    ensures rail { IfOk result
        (λ n. IsRail code.now (map word_nets words.now) dst.old dst.new n.0) }
{
    let columns = code.r();
    let mut alarm = dst.push(Gate::Const(false))?;
    for word in words {
        prove!(word.checks.len() == columns as usize);
        alarm = add_word(word, code, alarm, dst)?;
    }
    Ok(alarm)
}

// Appends the gates for a word behind those of the alarm so far, and answers the alarm with them.
fn add_word(
    word: &WordNets,
    code: &Code,
    alarm: NetId,
    dst: &mut GateNet,
) -> Result<NetId, AllocError>
    requires word { FitsCode code.now (word_nets word.now) }
    requires nets { AllByRecursion (λ n. n < net_count dst.old) (nets_of (word_nets word.now)) }
    requires alarm { net_count dst.old ≡ alarm.0 + 1 }
    requires room { net_count dst.old
        + length (alarm_gates alarm.0 (syndrome_bits code.now (word_nets word.now))) ≤ 2 ^ 23 }
    ensures kept { KeepsGates dst.old dst.new }
    ensures gates { OnOk result (dst.new ≡ record dst.old {
      gates = dst.old.gates ++ alarm_gates alarm.0 (syndrome_bits code.now (word_nets word.now));
    }) }
    ensures last { IfOk result (λ n. net_count dst.new ≡ n.0 + 1) }
{
    let columns = code.r();
    let mut alarm = alarm;
    for (j, check) in word.checks.iter().enumerate() {
        prove!(j < columns as usize);
        let bit = add_sum(&word.places, code, j as u8, *check, dst)?;
        alarm = dst.push(Gate::Two {
            op: Op::OR,
            a: alarm,
            b: bit,
        })?;
    }
    Ok(alarm)
}

// Appends the sum of a check place and of the places whose row has a 1 in column j, and answers the net that has it.
fn add_sum(
    places: &[NetId],
    code: &Code,
    j: u8,
    check: NetId,
    dst: &mut GateNet,
) -> Result<NetId, AllocError>
    requires places { length places.now ≤ data_places code.now }
    requires column { j < code.now.columns }
    requires nets { AllByRecursion (λ n. n < net_count dst.old) (check.0 ∷ map net_number places.now) }
    requires room { net_count dst.old
        + length (column_roots code.now j (map net_number places.now)) ≤ 2 ^ 23 }
    ensures kept { KeepsGates dst.old dst.new }
    ensures gates { OnOk result (dst.new ≡ record dst.old {
      gates = dst.old.gates
          ++ added_gates (net_count dst.old) check.0 (column_roots code.now j (map net_number places.now));
    }) }
    ensures sum { IfOk result (λ n. n.0
        ≡ whole_sum (net_count dst.old) check.0 (column_roots code.now j (map net_number places.now))) }
{
    let columns = code.r();
    prove!(j < columns);
    let mut sum = check;
    for (i, n) in places.iter().enumerate() {
        if code.row(i as u8) >> j & 1 == 1 {
            sum = dst.push(Gate::Two {
                op: Op::XOR,
                a: sum,
                b: *n,
            })?;
        }
    }
    Ok(sum)
}
