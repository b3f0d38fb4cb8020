// The bits that the latches of a guard start with.
ghost use Rattle.std.specs.Prelude.{◌≡◌, ◌+◌, ◌<◌, ◌^◌, ◌≤◌, [], false, length, map, slice_index_or, if◌then◌else◌};
ghost use Rattle.std.specs.List.{AllByRecursion};
ghost use Rattle.gate_net.specs.declared.machine.LatchRow.{LatchRow as Latch};
ghost use Rattle.netlist_spec.specs.Covers.{number_of};
ghost use Rattle.guard_spec.specs.Codes.{bits_of, data_places, encoded};
ghost use Rattle.guard_spec.specs.Words.{IsPartition, bits_at};

use crate::types::Layout;
use block_code::{Code, Word};
use gate_net::{LatchRow, Machine};

// The init of a latch.
fn init_of(latches: &[LatchRow], i: u32) -> u32
    requires { i < length latches.now }
    ensures { result ≡ (if slice_index_or (map (λ (r : Latch). r.init) latches.now) i false then 1 else 0) }
{
    if latches[i as usize].init { 1 } else { 0 }
}

// The data bits of a word: bit i is the init of the latch at place i.
fn data_inits(latches: &[LatchRow], word: &[u32]) -> Word
    requires few { length word.now ≤ 12 }
    requires within { AllByRecursion (λ i. i < length latches.now) word.now }
    ensures { result.0 ≡ number_of (bits_at word.now (map (λ (r : Latch). r.init) latches.now)) }
{
    let mut number = 0;
    for i in (0..word.len()).rev() {
        number = number * 2 + init_of(latches, word[i]);
    }
    Word(number)
}

/// The codeword of the inits of a state word: bit i is what the latch at place i of the word starts with.
pub fn initial(m: &Machine, l: &Layout, c: &Code, w: u32) -> Word
    requires layout { IsPartition (length m.now.latches) (data_places c.now) l.now.state }
    requires word { w < length l.now.state }
    ensures codeword { bits_of (length (slice_index_or l.now.state w []) + c.now.columns) result.0
        ≡ encoded c.now (bits_at (slice_index_or l.now.state w []) (map (λ r. r.init) m.now.latches)) }
    ensures within { result.0 < 2 ^ (length (slice_index_or l.now.state w []) + c.now.columns) }
{
    let word = &l.state[w as usize];
    let places = word.len();
    // A word has at most as many places as the code has rows.
    prove!(places <= c.k() as usize);
    c.encode(data_inits(&m.latches, word), places as u8)
}
