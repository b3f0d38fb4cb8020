// The gates that have the answers of covers.
ghost use Rattle.std.specs.Prelude.{◌≡◌, ◌<◌, ◌≤◌, length, map, [], ◌∷◌};
ghost use Rattle.std.specs.List.{list_any};
ghost use Rattle.netlist_spec.specs.Covers.{cover_value as cover_value_of, has_bit as has_bit_of, row_fits as row_fits_of};
ghost use Rattle.gate_net.specs.Gate.{gate_form, net_number};
ghost use Rattle.blif_read.specs.View.{cover_of, row_of};
ghost use Rattle.lowering.specs.Answers.{HasAnswers, HasOp};

use blif_read::{Cover, Row};
use gate_net::{Gate, NetId, Op};

fn has_bit(n: u16, i: usize) -> bool
    requires { i < 16 }
    ensures { result ≡ has_bit_of n i }
{
    (n >> i) & 1 == 1
}

// Whether the row has its value at each place that it cares for.
fn row_fits(row: &Row, bits: &[bool]) -> bool
    requires { length bits.now ≤ 16 }
    ensures { result ≡ row_fits_of (row_of row.now) bits.now }
{
    for (i, bit) in bits.iter().enumerate() {
        if has_bit(row.care, i) && *bit != has_bit(row.value, i) {
            return false;
        }
    }
    true
}

fn some_row_fits(cover: &Cover, bits: &[bool]) -> bool
    requires { length bits.now ≤ 16 }
    ensures { result ≡ list_any (λ row. row_fits_of (row_of row) bits.now) cover.now.rows.items }
{
    cover.rows.iter().any(|row| row_fits(row, bits))
}

// The cover's answer at the bits of its inputs.
fn cover_value(cover: &Cover, bits: &[bool]) -> bool
    requires { length bits.now ≤ 16 }
    ensures { result ≡ cover_value_of (cover_of cover.now) bits.now }
{
    if cover.rows.is_empty() {
        return false;
    }
    some_row_fits(cover, bits) == cover.on
}

// The answers of a cover of two inputs, of which the first is the higher bit of a place.
fn op_of(cover: &Cover) -> Op
    ensures { HasOp (cover_of cover.now) result }
{
    let at_00 = u8::from(cover_value(cover, &[false, false]));
    let at_01 = u8::from(cover_value(cover, &[false, true]));
    let at_10 = u8::from(cover_value(cover, &[true, false]));
    let at_11 = u8::from(cover_value(cover, &[true, true]));
    Op(at_00 + 2 * at_01 + 4 * at_10 + 8 * at_11)
}

// The gate with the answers of a cover of one input.
fn one_input(cover: &Cover, a: NetId) -> Gate
    ensures { HasAnswers (net_number a ∷ []) (cover_of cover.now) (gate_form result) }
{
    let low = cover_value(cover, &[false]);
    let high = cover_value(cover, &[true]);
    if low == high {
        Gate::Const(low)
    } else {
        Gate::One { inv: low, a }
    }
}

// The gate with the answers of a cover of two inputs. Where they are all 0 it reads nothing: as a cover of two inputs it would
// have no row, which some readers of netlists refuse.
fn two_inputs(cover: &Cover, a: NetId, b: NetId) -> Gate
    ensures { HasAnswers (net_number a ∷ net_number b ∷ []) (cover_of cover.now) (gate_form result) }
{
    let op = op_of(cover);
    if op.0 == 0 {
        Gate::Const(false)
    } else {
        Gate::Two { op, a, b }
    }
}

/// The gate with the answers of a cover that reads these nets, of which there are at most two.
pub(crate) fn gate_of_cover(cover: &Cover, nets: &[NetId]) -> Gate
    requires { length nets.now ≤ 2 }
    ensures { HasAnswers (map net_number nets.now) (cover_of cover.now) (gate_form result) }
{
    match *nets {
        [] => Gate::Const(cover_value(cover, &[])),
        [a] => one_input(cover, a),
        [a, b] => two_inputs(cover, a, b),
        _ => unreachable!(),
    }
}
