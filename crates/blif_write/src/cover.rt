// The covers of gates.
ghost use Rattle.std.specs.Prelude.{◌≡◌, ◌++◌, map, IfOk, OnOk};
ghost use Rattle.netlist_spec.specs.Gates.{gate_cover, gate_rows, pair_row, pair_rows};
ghost use Rattle.gate_net.specs.Gate.{gate_form};
ghost use Rattle.blif_read.specs.View.{cover_of, row_of};

use gate_net::{Gate, Op};
use imp_text::{Cover, Row};
use std::alloc::{AllocError, Global};

// The cover that stands for a gate.
pub(crate) fn cover(alloc: Global, gate: &Gate) -> Result<Cover, AllocError>
    ensures { IfOk result (λ cover. cover_of cover ≡ gate_cover (gate_form gate.now)) }
{
    let rows = rows(alloc, gate)?;
    Ok(Cover { on: true, rows })
}

fn rows(alloc: Global, gate: &Gate) -> Result<Vec<Row>, AllocError>
    ensures { IfOk result (λ rows. map row_of rows.items ≡ gate_rows (gate_form gate.now)) }
{
    match *gate {
        Gate::Const(false) => Ok(Vec::new(alloc)),
        Gate::Const(true) => Ok(vec![in alloc; Row { care: 0, value: 0 }]?),
        Gate::One { inv: false, .. } => Ok(vec![in alloc; Row { care: 1, value: 1 }]?),
        Gate::One { inv: true, .. } => Ok(vec![in alloc; Row { care: 1, value: 0 }]?),
        Gate::Two { op, .. } => table_rows(alloc, op),
    }
}

fn table_rows(alloc: Global, op: Op) -> Result<Vec<Row>, AllocError>
    ensures { IfOk result (λ rows. map row_of rows.items ≡ pair_rows op) }
{
    let mut rows = Vec::new(alloc);
    push_pair(op, false, false, &mut rows)?;
    push_pair(op, false, true, &mut rows)?;
    push_pair(op, true, false, &mut rows)?;
    push_pair(op, true, true, &mut rows)?;
    Ok(rows)
}

// A row for that pair of bits, if it has the answer 1.
fn push_pair(op: Op, a: bool, b: bool, rows: &mut Vec<Row>) -> Result<(), AllocError>
    ensures { OnOk result (map row_of rows.new.items ≡ map row_of rows.old.items ++ pair_row op a b) }
{
    if op.answer(a, b) {
        let value = u16::from(a) + 2 * u16::from(b);
        rows.push(Row { care: 3, value })?;
    }
    Ok(())
}
