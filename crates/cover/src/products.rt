// A cover as gates: a product for each row, and the products joined.
ghost use Rattle.std.specs.Prelude.{◌≡◌, ◌+◌, ◌*◌, ◌^◌, ◌<◌, ◌≤◌, ◌&&◌, ◌||◌, ◌≢◌, Bool, false, true, IfOk, length, map, ℕ};
ghost use Rattle.std.specs.Bool.{beq};
ghost use Rattle.std.specs.Option.{ForSome};
ghost use Rattle.std.specs.List.{AllByRecursion, list_any};
ghost use Rattle.netlist_spec.specs.Covers.{cover_value, has_bit, row_fits};
ghost use Rattle.netlist_spec.specs.Gates.{bit_number};
ghost use Rattle.netlist_spec.specs.Size.{cover_cost};
ghost use Rattle.gate_net.specs.Gate.{net_number};
ghost use Rattle.gate_net.specs.GateNet.{net_count};
ghost use Rattle.reduction.specs.Appended.{Extends, HasBit, IsAppended, ReadsInputsAlone, bit_so_far, nets_joined};
ghost use Rattle.cover.specs.Cover.{cover_of, row_of};

use gate_net::{Gate, GateNet, NetId, Op};
use imp_text::{Cover, Row};
use reduction::{bit, join, joined};
use std::alloc::AllocError;

/// Appends gates for a cover of at most 16 inputs, and answers the net that has its value.
pub fn lower(cover: &Cover, ins: &[NetId], net: &mut GateNet) -> Result<NetId, AllocError>
    requires inputs { length ins.now ≤ 16 }
    requires nets { AllByRecursion (λ n. n < net_count net.old) (map net_number ins.now) }
    requires room { net_count net.old + cover_cost (length ins.now) (length cover.now.rows.items)
        ≤ 2 ^ 23 }
    ensures appended { IfOk result (λ n. IsAppended net.old net.new n.0) }
    ensures value { IfOk result
        (λ n. HasBit net.old net.new n.0
        (λ v. cover_value (cover_of cover.now) (map v (map net_number ins.now)))) }
    ensures cost { net_count net.new
        ≤ net_count net.old + cover_cost (length ins.now) (length cover.now.rows.items) }
    ensures reads { ReadsInputsAlone net.old net.new (map net_number ins.now) }
    ensures extends { Extends net.old net.new }
{
    let any = some_product(&cover.rows, ins, net)?;
    if cover.on || cover.rows.is_empty() {
        return Ok(any);
    }
    net.push(Gate::One { inv: true, a: any })
}

// Whether some row fits the inputs.
fn some_product(rows: &[Row], ins: &[NetId], net: &mut GateNet) -> Result<NetId, AllocError>
    requires inputs { length ins.now ≤ 16 }
    requires nets { AllByRecursion (λ n. n < net_count net.old) (map net_number ins.now) }
    requires room { net_count net.old + length rows.now * (length ins.now + 2) + 1 ≤ 2 ^ 23 }
    ensures appended { IfOk result (λ n. IsAppended net.old net.new n.0) }
    ensures value { IfOk result
        (λ n. HasBit net.old net.new n.0
        (λ v. list_any (λ row. row_fits row (map v (map net_number ins.now)))
        (map row_of rows.now))) }
    ensures cost { net_count net.new
        ≤ net_count net.old + length rows.now * (length ins.now + 2) + 1 }
    ensures reads { ReadsInputsAlone net.old net.new (map net_number ins.now) }
    ensures extends { Extends net.old net.new }
{
    let mut any = None;
    for row in rows {
        let fits = product(*row, ins, net)?;
        any = Some(either(any, fits, net)?);
    }
    joined(false, any, net)
}

// Whether some earlier row fits or this one does.
fn either(any: Option<NetId>, fits: NetId, net: &mut GateNet) -> Result<NetId, AllocError>
    requires any { ForSome any (λ n. n.0 < net_count net.old) }
    requires fits { fits.0 < net_count net.old }
    requires room { net_count net.old < 2 ^ 23 }
    ensures net { IfOk result (λ n. (fits.0 ≤ n.0) × (n.0 < net_count net.new)) }
    ensures bit { IfOk result
        (λ n. HasBit net.old net.new n.0 (λ v. bit_so_far false any v || v fits.0)) }
    ensures cost { net_count net.new ≤ net_count net.old + 1 }
    ensures reads { ReadsInputsAlone net.old net.new (nets_joined any fits) }
    ensures extends { Extends net.old net.new }
{
    match any {
        Some(any) => net.push(Gate::Two {
            op: Op::OR,
            a: any,
            b: fits,
        }),
        None => Ok(fits),
    }
}

// Whether the row fits the inputs.
fn product(row: Row, ins: &[NetId], net: &mut GateNet) -> Result<NetId, AllocError>
    requires inputs { length ins.now ≤ 16 }
    requires nets { AllByRecursion (λ n. n < net_count net.old) (map net_number ins.now) }
    requires room { net_count net.old + length ins.now + 1 ≤ 2 ^ 23 }
    ensures appended { IfOk result (λ n. IsAppended net.old net.new n.0) }
    ensures value { IfOk result
        (λ n. HasBit net.old net.new n.0
        (λ v. row_fits (row_of row) (map v (map net_number ins.now)))) }
    ensures cost { net_count net.new ≤ net_count net.old + length ins.now + 1 }
    ensures reads { ReadsInputsAlone net.old net.new (map net_number ins.now) }
    ensures extends { Extends net.old net.new }
{
    let mut all = None;
    for (i, n) in ins.iter().enumerate() {
        if bit(u128::from(row.care), i) {
            let op = literal(bit(u128::from(row.value), i));
            all = Some(join(op, true, all, *n, net)?);
        }
    }
    joined(true, all, net)
}

// The operation that joins an input to a product, where the row asks for this bit of it.
fn literal(value: bool) -> Op
    ensures first { has_bit result (2 * bit_number true) ≢ has_bit result (2 * bit_number true + 1) }
    ensures answer { (a b : Bool) → has_bit result (2 * bit_number a + bit_number b) ≡ (a && beq b value) }
{
    if value { Op::AND } else { Op(0b0100) }
}
