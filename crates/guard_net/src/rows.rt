// The latches of a guard.
ghost use Rattle.std.specs.Prelude.{◌≡◌, ◌+◌, ◌<◌, ◌≤◌, ◌++◌, length, map, slice_range, IfOk, OnOk};
ghost use Rattle.netlist_spec.specs.Covers.{has_bit as has_bit_of};
ghost use Rattle.guard_spec.specs.Codes.{bits_of, data_places};
ghost use Rattle.guard_spec.specs.Words.{IsPartition, codewords};
ghost use Rattle.gate_net.specs.declared.machine.LatchRow.{LatchRow as Latch};
ghost use Rattle.gate_net.specs.Gate.{net_number};
ghost use Rattle.gate_net.specs.Machine.{latch_row};
ghost use Rattle.guard_laws.specs.Places.{latches_of_words};

use block_code::Code;
use encode_state::initial;
use encode_state::types::Layout;
use gate_net::{LatchRow, Machine, NetId};
use std::alloc::{AllocError, Global};

fn has_bit(word: u32, i: u32) -> bool
    requires { i < 32 }
    ensures { result ≡ has_bit_of word i }
{
    (word >> i) & 1 == 1
}

// A latch for each of the next cells, with the bits of a word.
fn push_rows(
    rows: &mut Vec<LatchRow>,
    cells: &[NetId],
    bits: u32,
    places: u32,
) -> Result<(), AllocError>
    requires places { places ≤ 28 }
    requires cells { length rows.old.items + places ≤ length cells.now }
    ensures stores { OnOk result (map (λ (r : Latch). r.d) rows.new.items
        ≡ map (λ (r : Latch). r.d) rows.old.items ++ slice_range cells.now (length rows.old.items) (length rows.old.items + places)) }
    ensures inits { OnOk result (map (λ (r : Latch). r.init) rows.new.items ≡ map (λ (r : Latch). r.init) rows.old.items ++ bits_of places bits) }
{
    for i in 0..places {
        let d = cells[rows.len()];
        let init = has_bit(bits, i);
        rows.push(LatchRow { d, init })?;
    }
    Ok(())
}

/// A latch for each place of the state words, which stores the place's cell. The latches of a word start with the codeword of
/// the bits that the source's latches start with.
pub(crate) fn latch_rows(
    alloc: Global,
    m: &Machine,
    l: &Layout,
    code: &Code,
    cells: &[NetId],
) -> Result<Vec<LatchRow>, AllocError>
    requires layout { IsPartition (length m.now.latches) (data_places code.now) l.now.state }
    requires cells { length cells.now ≡ latches_of_words code.now l.now.state }
    ensures stores { IfOk result (λ rows. map (λ r. r.d) (map latch_row rows.items) ≡ map net_number cells.now) }
    ensures inits { IfOk result (λ rows. map (λ r. r.init) (map latch_row rows.items)
        ≡ codewords code.now l.now.state (map (λ r. r.init) m.now.latches)) }
{
    // So that there are few words.
    let _nets = m.net.len();
    let columns = u32::from(code.r());
    let mut rows = Vec::new(alloc);
    for (w, word) in l.state.iter().enumerate() {
        let bits = initial(m, l, code, w as u32);
        push_rows(&mut rows, cells, bits.0, word.len() as u32 + columns)?;
    }
    Ok(rows)
}
