// The words that rails watch.
ghost use Rattle.std.specs.Prelude.{◌≡◌, ℕ, ◌+◌, ◌*◌, ◌^◌, ◌<◌, ◌≤◌, ◌++◌, Vec, length, map, slice_range, All, OnOk};
ghost use Rattle.std.specs.declared.alloc.Global.{Global as Heap};
ghost use Rattle.std.specs.List.{enumerate_from, range_with_len, sum_by};
ghost use Rattle.encode_state.specs.Types.{words_in};
ghost use Rattle.gate_net.specs.Gate.{net_number};
ghost use Rattle.gate_net.specs.Words.{word_nets};
ghost use Rattle.guard_laws.specs.Watched.{output_nets_of, state_nets};

use crate::words::word_roots;
use arrayvec::ArrayVec;
use block_code::Code;
use gate_net::{NetId, WordNets};
use std::alloc::AllocError;

// So many nets from one on: those of a word's data places.
fn data_run(first: u32, len: u32) -> ArrayVec<NetId, 12>
    requires room { len ≤ 12 }
    requires fits { first + len < 2 ^ 32 }
    ensures { map net_number result.items ≡ range_with_len first len }
{
    let mut nets = ArrayVec::new();
    for n in first..first + len {
        nets.push(NetId(n));
    }
    nets
}

// The same for its check places.
fn check_run(first: u32, len: u32) -> ArrayVec<NetId, 16>
    requires room { len ≤ 16 }
    requires fits { first + len < 2 ^ 32 }
    ensures { map net_number result.items ≡ range_with_len first len }
{
    let mut nets = ArrayVec::new();
    for n in first..first + len {
        nets.push(NetId(n));
    }
    nets
}

/// The nets of a word from net `at` on: those of its data places, and behind them those of its check places.
pub fn word_run(at: u32, len: u32, columns: u32) -> WordNets
    requires places { len ≤ 12 }
    requires checks { columns ≤ 16 }
    requires fits { at + len + columns < 2 ^ 32 }
    ensures { word_nets result ≡ record { places = range_with_len at len; checks = range_with_len (at + len) columns } }
{
    WordNets {
        places: data_run(at, len),
        checks: check_run(at + len, columns),
    }
}

// The nets of a part of a list.
fn part(nets: &[NetId], first: usize, len: usize) -> ArrayVec<NetId, 16>
    requires room { len ≤ 16 }
    requires within { first + len ≤ length nets.now }
    ensures { map net_number result.items ≡ slice_range (map net_number nets.now) first (first + len) }
{
    let mut found = ArrayVec::new();
    for n in &nets[first..first + len] {
        found.push(*n);
    }
    found
}

/// The state words: latches from net `first` on.
pub(crate) fn push_state_words(
    watched: &mut Vec<WordNets>,
    first: u32,
    words: &[Vec<u32>],
    code: &Code,
) -> Result<(), AllocError>
    requires short { All (λ (w : Vec ℕ Heap). length w.items ≤ 12) words.now }
    requires fits { first + sum_by (λ w. length w + code.now.columns) (words_in words.now) < 2 ^ 32 }
    ensures { OnOk result (map word_nets watched.new.items ≡ map word_nets watched.old.items ++ state_nets code.now first (words_in words.now)) }
{
    let columns = u32::from(code.r());
    let mut at = first;
    for word in words {
        let len = word.len() as u32;
        watched.push(word_run(at, len, columns))?;
        at += len + columns;
    }
    Ok(())
}

/// The output words: outputs of the source, of which there are so many, and behind them check outputs.
pub(crate) fn push_output_words(
    watched: &mut Vec<WordNets>,
    outputs: &[NetId],
    shown: usize,
    words: &[Vec<u32>],
    code: &Code,
) -> Result<(), AllocError>
    requires short { All (λ (w : Vec ℕ Heap). length w.items ≤ 12) words.now }
    requires within { All (λ (w : Vec ℕ Heap). All (λ i. i < shown) w.items) words.now }
    requires outputs { length outputs.now ≡ shown + length words.now * code.now.columns }
    ensures { OnOk result (map word_nets watched.new.items ≡ map word_nets watched.old.items
        ++ map (output_nets_of code.now shown (map net_number outputs.now)) (enumerate_from 0 (words_in words.now))) }
{
    let columns = usize::from(code.r());
    let mut at = shown;
    for word in words {
        let places = word_roots(outputs, word);
        let checks = part(outputs, at, columns);
        watched.push(WordNets { places, checks })?;
        at += columns;
    }
    Ok(())
}
