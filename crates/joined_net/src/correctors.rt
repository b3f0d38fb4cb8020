// Correctors of state words, one behind the other.
ghost use Rattle.std.specs.Prelude.{◌≡◌, ℕ, ◌+◌, ◌*◌, ◌^◌, ◌<◌, ◌≤◌, ◌++◌, List, length, map, All, IfOk, IsTrue, OnOk, sum_by};
ghost use Rattle.std.specs.List.{AllByRecursion, range_with_len};
ghost use Rattle.encode_state.specs.Types.{words_in};
ghost use Rattle.gate_net.specs.Gate.{net_number};
ghost use Rattle.gate_net.specs.GateNet.{net_count};
ghost use Rattle.gate_net.specs.Words.{word_nets};
ghost use Rattle.guard_spec.specs.Codes.{IsDistance, data_places};
ghost use Rattle.guard_spec.specs.Plain.{corrector_cost};
ghost use Rattle.guard_spec.specs.Words.{IsPartition};
ghost use Rattle.guard_laws.specs.Places.{latches_of_words};
ghost use Rattle.cone_split.specs.Ranges.{KeepsGates};
ghost use Rattle.correction_laws.specs.Joined.{IsCorrector};
ghost use Rattle.joined_net.specs.Words.{CoversCosts, GainsWords, put_nets};

use crate::marks::has_mark;
use arrayvec::ArrayVec;
use block_code::Code;
use corrector::corrected;
use distance::patterns;
use encode_state::types::Layout;
use gate_net::{GateNet, Machine, NetId};
use guard_net::word_run;
use std::alloc::{AllocError, Global};

// Puts the nets of a word's places at the word's numbers.
fn put_at(nets: &mut [NetId], word: &[u32], found: &[NetId])
    requires within { All (λ i. i < length nets.old) word.now }
    requires count { length found.now ≡ length word.now }
    ensures { map net_number nets.new ≡ put_nets word.now (map net_number found.now) (map net_number nets.old) }
{
    for (p, j) in word.iter().enumerate() {
        nets[*j as usize] = found[p];
    }
}

// The nets that stand for the data places of a word, the first of them net `at`: those of a corrector, which is appended, or
// the places themselves.
fn word_corrector(
    alloc: Global,
    word: &[u32],
    at: u32,
    needed: bool,
    c: &Code,
    t: u8,
    net: &mut GateNet,
) -> Result<ArrayVec<NetId, 12>, AllocError>
    requires some_place { 1 ≤ length word.now }
    requires places { length word.now ≤ data_places c.now }
    requires leaves { at + (length word.now + c.now.columns) ≤ net.old.leaves }
    requires distance { (d : ℕ) × IsDistance c.now d × (2 * t < d) }
    requires room { IsTrue needed → net_count net.old + corrector_cost c.now t (length word.now) ≤ 2 ^ 23 }
    ensures kept { KeepsGates net.old net.new }
    ensures corrector { IfOk result (λ nets. IsCorrector net.new c.now t at (record {
      word = word.now;
      nets = map net_number nets.items;
      first = net_count net.old;
      end = net_count net.new;
      serves = needed;
    })) }
{
    // So that there are few nets.
    let _nets = net.len();
    let len = word.len() as u32;
    let columns = u32::from(c.r());
    let shown = word_run(at, len, columns);
    if !needed {
        return Ok(shown.places);
    }
    let pats = patterns(alloc, c, len as u8, t)?;
    let nets = corrected(alloc, &shown, c, t, &pats, net)?;
    Ok(nets)
}

/// Appends the correctors of the words of which some latch is marked, and puts the net that stands for each latch at its number.
pub(crate) fn add_words(
    alloc: Global,
    inputs: u32,
    words: &[Vec<u32>],
    marks: &[bool],
    c: &Code,
    t: u8,
    net: &mut GateNet,
    nets: &mut [NetId],
) -> Result<(), AllocError>
    requires words { IsPartition (length nets.old) (data_places c.now) (words_in words.now) }
    requires marks { inputs + length nets.old ≤ length marks.now }
    requires few { length marks.now < 2 ^ 32 }
    requires leaves { net.old.leaves ≡ inputs + latches_of_words c.now (words_in words.now) }
    requires bare { net_count net.old ≡ net.old.leaves }
    requires below { AllByRecursion (λ n. n < net_count net.old) (map net_number nets.old) }
    requires distance { (d : ℕ) × IsDistance c.now d × (2 * t < d) }
    requires room { (cost : List ℕ → ℕ) × CoversCosts c.now t inputs marks.now cost
        × (net_count net.old + sum_by cost (words_in words.now) ≤ 2 ^ 23) }
    ensures gained { OnOk result (GainsWords c.now t inputs (length nets.old) marks.now (words_in words.now) net.new (map net_number nets.new)) }
    ensures kept { KeepsGates net.old net.new }
{
    let columns = u32::from(c.r());
    let mut at = inputs;
    for entry in words {
        let word = entry.as_slice();
        let needed = has_mark(marks, inputs, word);
        let found = word_corrector(alloc, word, at, needed, c, t, net)?;
        put_at(nets, word, &found);
        at += word.len() as u32 + columns;
    }
    Ok(())
}

/// How many leaves a guard has: its data inputs, and the places of the state words.
pub(crate) fn leaf_count(inputs: u32, words: &[Vec<u32>], columns: u32) -> u32
    requires { inputs + sum_by (λ w. length w + columns) (words_in words.now) < 2 ^ 32 }
    ensures { result ≡ inputs + sum_by (λ w. length w + columns) (words_in words.now) }
{
    let mut count = inputs;
    for word in words {
        count += word.len() as u32 + columns;
    }
    count
}

/// The nets that stand for the leaves of the source: the data inputs and the corrected nets.
pub(crate) fn leaf_nets(
    alloc: Global,
    inputs: u32,
    nets: &[NetId],
) -> Result<Vec<NetId>, AllocError>
    ensures { IfOk result (λ leaf. map net_number leaf.items ≡ range_with_len 0 inputs ++ map net_number nets.now) }
{
    let mut leaf = Vec::new(alloc);
    for i in 0..inputs {
        leaf.push(NetId(i))?;
    }
    leaf.extend_from_slice(nets)?;
    Ok(leaf)
}

/// Appends the correctors of the state words of which some latch is marked, and answers the net that stands for each latch.
pub(crate) fn correct_state(
    alloc: Global,
    m: &Machine,
    l: &Layout,
    marks: &[bool],
    c: &Code,
    t: u8,
    net: &mut GateNet,
) -> Result<Vec<NetId>, AllocError>
    requires words { IsPartition (length m.now.latches) (data_places c.now) l.now.state }
    requires marks { length marks.now ≡ net_count m.now.net }
    requires leaves { net.old.leaves ≡ m.now.inputs + latches_of_words c.now l.now.state }
    requires bare { net_count net.old ≡ net.old.leaves }
    requires distance { (d : ℕ) × IsDistance c.now d × (2 * t < d) }
    requires room { (cost : List ℕ → ℕ) × CoversCosts c.now t m.now.inputs marks.now cost
        × (net_count net.old + sum_by cost l.now.state ≤ 2 ^ 23) }
    ensures gained { IfOk result (λ nets. GainsWords c.now t m.now.inputs (length m.now.latches) marks.now l.now.state net.new (map net_number nets.items)) }
    ensures kept { KeepsGates net.old net.new }
{
    // So that there are few nets.
    let _nets = m.net.len();
    let mut nets = vec![in alloc; NetId(0); m.latches.len()]?;
    add_words(alloc, m.inputs, &l.state, marks, c, t, net, &mut nets)?;
    Ok(nets)
}
