// The nets of a guard that stand for the leaves of its source.
ghost use Rattle.std.specs.Prelude.{◌≡◌, ℕ, ◌+◌, ◌^◌, ◌<◌, Vec, length, map, replicate, All, IfOk, OnOk};
ghost use Rattle.std.specs.declared.alloc.Global.{Global as Heap};
ghost use Rattle.std.specs.List.{sum_by};
ghost use Rattle.netlist_spec.specs.Gates.{IsMachine};
ghost use Rattle.encode_state.specs.Types.{words_in};
ghost use Rattle.gate_net.specs.Gate.{net_number};
ghost use Rattle.guard_spec.specs.Codes.{data_places as data_places_of};
ghost use Rattle.guard_spec.specs.Words.{IsPartition};
ghost use Rattle.guard_laws.specs.Places.{latches_of_words};
ghost use Rattle.guard_net.specs.Built.{HasLeaves, put_word, put_words};

use block_code::Code;
use encode_state::types::Layout;
use gate_net::{Machine, NetId};
use std::alloc::{AllocError, Global};

/// For each leaf of the source the net that has its bit where the state words are right, and how many leaves there are.
#[derive(Drop)]
pub(crate) struct Leaves {
    pub nets: Vec<NetId>,
    pub count: u32,
}

// Puts the nets of a word's places, the first of them net `at`, at the word's numbers.
fn put_places(places: &mut [NetId], word: &[u32], at: u32)
    requires within { All (λ i. i < length places.old) word.now }
    requires fits { at + length word.now < 2 ^ 32 }
    ensures { map net_number places.new ≡ put_word at word.now (map net_number places.old) }
{
    for (p, j) in word.iter().enumerate() {
        places[*j as usize] = NetId(at + p as u32);
    }
}

// The data place of each latch, by its number, and the net behind the last place.
fn data_places(
    alloc: Global,
    first: u32,
    latches: usize,
    words: &[Vec<u32>],
    columns: u32,
) -> Result<Leaves, AllocError>
    requires within { All (λ (w : Vec ℕ Heap). All (λ i. i < latches) w.items) words.now }
    requires fits { first + sum_by (λ w. length w + columns) (words_in words.now) < 2 ^ 32 }
    ensures places { IfOk result (λ leaves. map net_number leaves.nets.items ≡ put_words columns first (words_in words.now) (replicate latches 0)) }
    ensures count { IfOk result (λ leaves. leaves.count ≡ first + sum_by (λ w. length w + columns) (words_in words.now)) }
{
    let mut nets = vec![in alloc; NetId(0); latches]?;
    let mut count = first;
    for word in words {
        put_places(&mut nets, word, count);
        count += word.len() as u32 + columns;
    }
    Ok(Leaves { nets, count })
}

/// A data input of the source is that of the guard, and a latch is the data place where its number stands in the words.
pub(crate) fn leaf_nets(
    alloc: Global,
    m: &Machine,
    l: &Layout,
    code: &Code,
) -> Result<Leaves, AllocError>
    requires words { IsPartition (length m.now.latches) (data_places_of code.now) l.now.state }
    requires fits { m.now.inputs + latches_of_words code.now l.now.state < 2 ^ 32 }
    ensures machine { OnOk result (IsMachine m.now) }
    ensures leaves { IfOk result (λ leaves. HasLeaves m.now code.now l.now (map net_number leaves.nets.items) leaves.count) }
{
    let columns = u32::from(code.r());
    let places = data_places(alloc, m.inputs, m.latches.len(), &l.state, columns)?;
    let mut nets = Vec::new(alloc);
    for i in 0..m.inputs {
        nets.push(NetId(i))?;
    }
    nets.extend_from_slice(&places.nets)?;
    let count = places.count;
    Ok(Leaves { nets, count })
}
