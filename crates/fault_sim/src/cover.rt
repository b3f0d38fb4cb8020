// The values of covers.
ghost use Rattle.std.specs.Prelude.{◌≡◌, ◌<◌, ◌≤◌, length, map, All, IfOk};
ghost use Rattle.std.specs.List.{list_any};
ghost use Rattle.netlist_spec.specs.Covers.{cover_value as cover_value_of, has_bit as has_bit_of, row_fits as row_fits_of};
ghost use Rattle.blif_read.specs.View.{cover_of, row_of};
ghost use Rattle.imp_text.specs.declared.names.NameId.{NameId as Id};
ghost use Rattle.fault_sim.specs.Gates.{HasTable, bit_in};

use blif_read::{Cover, NameId, Row};
use std::alloc::{AllocError, Global};

// The most inputs of a cover.
const MOST_INPUTS: usize = 16;

fn has_bit(n: u16, i: usize) -> bool
    requires { i < 16 }
    ensures { result ≡ has_bit_of n i }
{
    (n >> i) & 1 == 1
}

// Whether the row has its value at each place that it cares for.
fn row_fits(row: &Row, bits: &[bool]) -> bool
    requires { length bits.now ≤ 16 }
    ensures { result ≡ row_fits_of (row_of row.now) bits.now }
{
    for (i, bit) in bits.iter().enumerate() {
        if has_bit(row.care, i) && *bit != has_bit(row.value, i) {
            return false;
        }
    }
    true
}

fn some_row_fits(cover: &Cover, bits: &[bool]) -> bool
    requires { length bits.now ≤ 16 }
    ensures { result ≡ list_any (λ row. row_fits_of (row_of row) bits.now) cover.now.rows.items }
{
    cover.rows.iter().any(|row| row_fits(row, bits))
}

// The cover's answer at the bits of its inputs.
fn cover_value(cover: &Cover, bits: &[bool]) -> bool
    requires { length bits.now ≤ 16 }
    ensures { result ≡ cover_value_of (cover_of cover.now) bits.now }
{
    if cover.rows.is_empty() {
        return false;
    }
    some_row_fits(cover, bits) == cover.on
}

// The answers of a cover of at most two inputs, by the number that their bits spell, the first of them highest.
pub(crate) fn table_of(cover: &Cover, inputs: usize) -> [bool; 4]
    ensures { HasTable result inputs (cover_of cover.now) }
{
    match inputs {
        0 => [cover_value(cover, &[]), false, false, false],
        1 => [
            cover_value(cover, &[false]),
            cover_value(cover, &[true]),
            false,
            false,
        ],
        2 => [
            cover_value(cover, &[false, false]),
            cover_value(cover, &[false, true]),
            cover_value(cover, &[true, false]),
            cover_value(cover, &[true, true]),
        ],
        _ => [false; 4],
    }
}

// The answer of a cover row by row.
fn value_by_rows(cover: &Cover, ins: &[NameId], row: &[bool]) -> bool
    requires ins { All (λ (id : Id). id.0 < length row.now) ins.now }
    requires few { length ins.now ≤ 16 }
    ensures { result ≡ cover_value_of (cover_of cover.now) (map (bit_in row.now) ins.now) }
{
    let mut bits = [false; MOST_INPUTS];
    for (i, id) in ins.iter().enumerate() {
        bits[i] = row[id.0 as usize];
    }
    cover_value(cover, &bits[..ins.len()])
}

// The answer of a cover where the nets have the bits of the row: by its table for at most two inputs.
pub(crate) fn value_at(table: [bool; 4], cover: &Cover, ins: &[NameId], row: &[bool]) -> bool
    requires ins { All (λ (id : Id). id.0 < length row.now) ins.now }
    requires few { length ins.now ≤ 16 }
    requires table { HasTable table (length ins.now) (cover_of cover.now) }
    ensures { result ≡ cover_value_of (cover_of cover.now) (map (bit_in row.now) ins.now) }
{
    match *ins {
        [] => table[0],
        [a] => table[usize::from(row[a.0 as usize])],
        [a, b] => table[2 * usize::from(row[a.0 as usize]) + usize::from(row[b.0 as usize])],
        _ => value_by_rows(cover, ins, row),
    }
}

// The same cover.
pub(crate) fn copy_cover(alloc: Global, cover: &Cover) -> Result<Cover, AllocError>
    ensures { IfOk result (λ copy. cover_of copy ≡ cover_of cover.now) }
{
    Ok(Cover {
        on: cover.on,
        rows: cover.rows.to_vec(alloc)?,
    })
}
