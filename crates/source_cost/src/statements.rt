// What the statements of a model cost.
ghost use Rattle.std.specs.Prelude.{◌≡◌, List, length, map, min, All, IfOk};
ghost use Rattle.netlist_spec.specs.Netlist.{Bind, Name as Bytes};
ghost use Rattle.netlist_spec.specs.Placed.{nothing};
ghost use Rattle.netlist_spec.specs.Size.{cost_of, cost_to_depth, linear_cost, placed_cost as placed_cost_of};
ghost use Rattle.blif_read.specs.View.{model_of, statement_of};
ghost use Rattle.linear_layer.specs.declared.layer.NamedLinear.{NamedLinear as ReadLinear};
ghost use Rattle.source_nets.specs.Ports.{source_file, source_library};
ghost use Rattle.source_nets.specs.Survey.{IsMeaningIn, IsModelSurvey, Means, placed_at};
ghost use Rattle.source_cost.specs.Costs.{IsCosted, cut_costs};

use crate::cells::{cover_cost, table_cost};
use crate::sums::cut;
use blif_read::{Model, Statement};
use source_nets::{Meaning, ModelSurvey, Source};
use std::alloc::{AllocError, Global};

// The cost of a `.subckt` with so many port words, cut off.
fn placed_cost(
    source: &Source,
    linears: &[u32],
    inner: &[u32],
    meaning: Meaning,
    words: usize,
) -> u32
    requires linears { linears.now ≡ map (λ (l : ReadLinear). linear_cost l.layer) source.now.linears.now }
    requires each { length inner.now ≡ length (source_file source.now).models }
    requires meaning { IsMeaningIn (source_file source.now) (source_library source.now) meaning }
    requires costed { IsCosted (source_file source.now) (source_library source.now) inner.now meaning }
    ensures { let file = source_file source.now in let library = source_library source.now in
        (binds : List Bind) → length binds ≡ words → result ≡ min (placed_cost_of (cost_to_depth file library (length file.models)) (placed_at file library meaning) binds) 1000001 }
{
    match meaning {
        Meaning::Cell | Meaning::Nothing => 0,
        Meaning::Model(k) => cut(1 + u64::from(cut(words as u64)) + u64::from(inner[k])),
        Meaning::Table(k) => cut(u64::from(table_cost(&source.tables[k].table))),
        Meaning::Linear(k) => cut(u64::from(linears[k])),
    }
}

// The cost of a statement, cut off.
fn statement_cost(
    source: &Source,
    linears: &[u32],
    inner: &[u32],
    meaning: Meaning,
    s: &Statement,
) -> u32
    requires linears { linears.now ≡ map (λ (l : ReadLinear). linear_cost l.layer) source.now.linears.now }
    requires each { length inner.now ≡ length (source_file source.now).models }
    requires meaning { IsMeaningIn (source_file source.now) (source_library source.now) meaning }
    requires costed { IsCosted (source_file source.now) (source_library source.now) inner.now meaning }
    ensures { let file = source_file source.now in let library = source_library source.now in
        (all : List Bytes) → Means file library (statement_of all s.now) meaning → result ≡ min (cost_of file library (statement_of all s.now)) 1000001 }
{
    match s {
        Statement::Names { ins, cover, .. } => cover_cost(ins.len(), cover.rows.len()),
        Statement::Latch { .. } => 0,
        Statement::Subckt { binds, .. } => {
            placed_cost(source, linears, inner, meaning, binds.len())
        }
    }
}

// The costs of the statements of a model, each cut off.
pub(crate) fn statement_costs(
    alloc: Global,
    source: &Source,
    linears: &[u32],
    inner: &[u32],
    m: &Model,
    survey: &ModelSurvey,
) -> Result<Vec<u32>, AllocError>
    requires linears { linears.now ≡ map (λ (l : ReadLinear). linear_cost l.layer) source.now.linears.now }
    requires each { length inner.now ≡ length (source_file source.now).models }
    requires survey { IsModelSurvey (source_file source.now) (source_library source.now) (model_of m.now) survey.now }
    requires costed { All (IsCosted (source_file source.now) (source_library source.now) inner.now) survey.now.meanings.items }
    ensures { IfOk result (λ costs. costs.items ≡ cut_costs (source_file source.now) (source_library source.now) (model_of m.now).statements) }
{
    let mut costs = Vec::new(alloc);
    for (i, s) in m.statements.iter().enumerate() {
        let meaning = survey.meanings[i];
        costs.push(statement_cost(source, linears, inner, meaning, &s.what))?;
    }
    Ok(costs)
}
