// What covers, S-boxes and linear layers cost.
ghost use Rattle.std.specs.Prelude.{◌≡◌, min, map, IfOk};
ghost use Rattle.netlist_spec.specs.Size.{cover_cost as cover_cost_of, linear_cost as linear_cost_of, table_cost as table_cost_of};
ghost use Rattle.linear_layer.specs.declared.layer.NamedLinear.{NamedLinear as ReadLinear};

use crate::sums::cut;
use linear_layer::{Linear, NamedLinear};
use sbox_table::Table;
use std::alloc::{AllocError, Global};

// The cost of a cover of so many inputs and rows, cut off.
pub(crate) fn cover_cost(ins: usize, rows: usize) -> u32
    ensures { result ≡ min (cover_cost_of ins rows) 1000001 }
{
    let ins = u64::from(cut(ins as u64));
    let rows = u64::from(cut(rows as u64));
    cut(2 * rows * (ins + 1) + 2)
}

// An S-box costs 4 cells for each output and each number that the inputs spell.
pub(crate) fn table_cost(table: &Table) -> u32
    ensures { result ≡ table_cost_of table.now }
{
    prove!(table.ins <= 8 && table.outs <= 8);
    4 * u32::from(table.outs) * (1 << table.ins)
}

// Each row of a linear layer costs 1 and its ones.
fn linear_cost(layer: &Linear) -> u32
    ensures { result ≡ linear_cost_of layer.now }
{
    prove!(layer.rows.len() <= 128);
    let mut cost = 0;
    for row in &layer.rows {
        cost += row.count_ones() + 1;
    }
    cost
}

// The costs of the linear layers of a library, by their places.
pub(crate) fn linear_costs(alloc: Global, linears: &[NamedLinear]) -> Result<Vec<u32>, AllocError>
    ensures { IfOk result (λ costs. costs.items ≡ map (λ (l : ReadLinear). linear_cost_of l.layer) linears.now) }
{
    let mut costs = Vec::new(alloc);
    for l in linears {
        costs.push(linear_cost(&l.layer))?;
    }
    Ok(costs)
}
