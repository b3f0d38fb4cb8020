// What the models of a source cost, placed models first, so that each is costed once.
ghost use Rattle.std.specs.Prelude.{◌≡◌, ◌<◌, Some, length, map, min, slice_get, sum, IfOk};
ghost use Rattle.netlist_spec.specs.Models.{main_model};
ghost use Rattle.netlist_spec.specs.Netlist.{Model as SpecModel};
ghost use Rattle.netlist_spec.specs.Size.{cost_of, linear_cost, whole_cost};
ghost use Rattle.netlist_spec.specs.Sound.{IsUsed};
ghost use Rattle.netlist_spec.specs.SoundFaults.{ContainsItself};
ghost use Rattle.linear_layer.specs.declared.layer.NamedLinear.{NamedLinear as ReadLinear};
ghost use Rattle.source_models.specs.Order.{IsPlacedFirst};
ghost use Rattle.source_nets.specs.Ports.{source_file, source_library};
ghost use Rattle.source_nets.specs.Survey.{IsSurvey};
ghost use Rattle.source_cost.specs.Costs.{AreCostsBelow, AreInnerCosts, cut_costs, statements_in};

use crate::cells::linear_costs;
use crate::statements::statement_costs;
use crate::sums::total_cost;
use source_laws::placed_models_cost_their_statements;
use source_nets::{Source, Survey};
use std::alloc::{AllocError, Global};

// The costs of the statements of the model at a place, each cut off. `inner` has what the models cost that it places.
fn model_costs(
    alloc: Global,
    source: &Source,
    survey: &Survey,
    linears: &[u32],
    inner: &[u32],
    i: usize,
) -> Result<Vec<u32>, AllocError>
    requires survey { IsSurvey (source_file source.now) (source_library source.now) survey.now }
    requires no_recursion { (m : SpecModel) → IsUsed (source_file source.now) m → ContainsItself (source_file source.now) (source_library source.now) m → ⊥ }
    requires linears { linears.now ≡ map (λ (l : ReadLinear). linear_cost l.layer) source.now.linears.now }
    requires inner { AreCostsBelow (source_file source.now) (source_library source.now) i inner.now }
    requires within { i < length (source_file source.now).models }
    requires used { (m : SpecModel) → slice_get (source_file source.now).models i ≡ Some m → IsUsed (source_file source.now) m }
    ensures { IfOk result (λ costs. (m : SpecModel) → slice_get (source_file source.now).models i ≡ Some m
        → costs.items ≡ cut_costs (source_file source.now) (source_library source.now) m.statements) }
{
    // What the law says is known behind its call.
    placed_models_cost_their_statements();
    let m = &source.file.models[i];
    statement_costs(alloc, source, linears, inner, m, &survey.models[i])
}

// For each used model what its statements cost, cut off.
fn inner_costs(
    alloc: Global,
    source: &Source,
    survey: &Survey,
    order: &[usize],
    linears: &[u32],
) -> Result<Vec<u32>, AllocError>
    requires survey { IsSurvey (source_file source.now) (source_library source.now) survey.now }
    requires order { IsPlacedFirst (source_file source.now) order.now }
    requires no_recursion { (m : SpecModel) → IsUsed (source_file source.now) m → ContainsItself (source_file source.now) (source_library source.now) m → ⊥ }
    requires linears { linears.now ≡ map (λ (l : ReadLinear). linear_cost l.layer) source.now.linears.now }
    ensures { IfOk result (λ inner. AreInnerCosts (source_file source.now) (source_library source.now) order.now inner.items) }
{
    let mut inner = vec![in alloc; 0; source.file.models.len()]?;
    for place in order {
        let costs = model_costs(alloc, source, survey, linears, &inner, *place)?;
        inner[*place] = total_cost(&costs);
    }
    Ok(inner)
}

/// What the statements of the main model cost, in their order, each cut off at 1,000,001. A placed model costs 1, its port
/// words and its statements. `order` has the places of the used models, placed models first, and each is costed once.
pub fn main_costs(
    alloc: Global,
    source: &Source,
    survey: &Survey,
    order: &[usize],
) -> Result<Vec<u32>, AllocError>
    requires survey { IsSurvey (source_file source.now) (source_library source.now) survey.now }
    requires order { IsPlacedFirst (source_file source.now) order.now }
    requires no_recursion { (m : SpecModel) → IsUsed (source_file source.now) m → ContainsItself (source_file source.now) (source_library source.now) m → ⊥ }
    ensures each { IfOk result (λ costs. costs.items ≡ map (λ s. min (cost_of (source_file source.now) (source_library source.now) s.what) 1000001) (statements_in (main_model (source_file source.now)))) }
    ensures total { IfOk result (λ costs. min (sum costs.items) 1000001 ≡ min (whole_cost (source_file source.now) (source_library source.now)) 1000001) }
{
    if source.file.models.is_empty() {
        return Ok(Vec::new(alloc));
    }
    let linears = linear_costs(alloc, source.linears)?;
    let inner = inner_costs(alloc, source, survey, order, &linears)?;
    model_costs(alloc, source, survey, &linears, &inner, 0)
}
