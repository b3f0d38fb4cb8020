// The models of a source: which are used, and which of these are at fault.
ghost use Rattle.std.specs.Prelude.{◌≡◌, ◌<◌, ◌↔◌, length, map, not, IfOk, IsTrue};
ghost use Rattle.netlist_spec.specs.FileRules.{IsFile};
ghost use Rattle.netlist_spec.specs.Lines.{is_empty};
ghost use Rattle.netlist_spec.specs.Models.{latches_of};
ghost use Rattle.netlist_spec.specs.SoundFaults.{HasLatchInside, IsTooDeep};
ghost use Rattle.blif_read.specs.View.{model_of};
ghost use Rattle.net_graph.specs.Chains.{IsMarked};
ghost use Rattle.source_nets.specs.Ports.{source_file, source_library};
ghost use Rattle.source_nets.specs.Survey.{AreUsedMarks, IsSurvey};
ghost use Rattle.source_tests.specs.Found.{IsFirstNamed};
ghost use Rattle.source_models.specs.Recursion.{IsRecursion};

use crate::sort::{Sorted, sort};
use crate::types::Recursion;
use blif_read::{Model, Name};
use main_check::has_latch;
use net_graph::{Graph, reach, reach_past};
use source_nets::{Source, Survey};
use std::alloc::{AllocError, Global};

// The most steps of a chain of `.subckt` from the main model.
const MOST_STEPS: usize = 16;

/// Marks at the models that a file uses: the main one, which is the first, and each that a used model places.
pub fn used_models(alloc: Global, source: &Source, survey: &Survey) -> Result<Vec<bool>, AllocError>
    requires is_file { IsFile (source_file source.now) }
    requires survey { IsSurvey (source_file source.now) (source_library source.now) survey.now }
    ensures { IfOk result (λ used. AreUsedMarks (source_file source.now) used.items) }
{
    let graph = model_graph(alloc, survey)?;
    reach(alloc, &graph, 0)
}

/// An order of the used models, or the first one, in file order, that contains itself. The order is found in linear work.
pub fn recursion(
    alloc: Global,
    source: &Source,
    survey: &Survey,
    used: &[bool],
) -> Result<Recursion, AllocError>
    requires is_file { IsFile (source_file source.now) }
    requires survey { IsSurvey (source_file source.now) (source_library source.now) survey.now }
    requires used { AreUsedMarks (source_file source.now) used.now }
    ensures { IfOk result (IsRecursion (source_file source.now) (source_library source.now)) }
{
    let graph = model_graph(alloc, survey)?;
    let sorted = sort(alloc, &graph, used)?;
    match sorted {
        Sorted::Order(order) => Ok(Recursion::Order(order)),
        Sorted::OnCycle(k) => {
            let name = name_of(alloc, &source.file.models[k])?;
            Ok(Recursion::ContainsItself(name))
        }
    }
}

/// The first used model, in file order, that has a latch and isn't the main one.
pub fn first_latch_inside(
    alloc: Global,
    source: &Source,
    used: &[bool],
) -> Result<Option<Name>, AllocError>
    requires is_file { IsFile (source_file source.now) }
    requires used { AreUsedMarks (source_file source.now) used.now }
    ensures exact { IfOk result (IsFirstNamed (source_file source.now) (HasLatchInside (source_file source.now) (source_library source.now))) }
{
    for (k, m) in source.file.models.iter().enumerate() {
        if is_latch_inside(used, k, m) {
            return Ok(Some(name_of(alloc, m)?));
        }
    }
    Ok(None)
}

// Whether the model at a place is used, isn't the main one and has a latch.
fn is_latch_inside(used: &[bool], k: usize, m: &Model) -> bool
    requires { k < length used.now }
    ensures { IsTrue result ↔ ((0 < k) × IsMarked used.now k × IsTrue (not (is_empty (latches_of (model_of m.now))))) }
{
    k > 0 && used[k] && has_latch(m)
}

/// The first used model, in file order, to which a chain of more than 16 `.subckt` steps leads from the main model.
pub fn first_too_deep(
    alloc: Global,
    source: &Source,
    survey: &Survey,
    used: &[bool],
) -> Result<Option<Name>, AllocError>
    requires is_file { IsFile (source_file source.now) }
    requires survey { IsSurvey (source_file source.now) (source_library source.now) survey.now }
    requires used { AreUsedMarks (source_file source.now) used.now }
    ensures exact { IfOk result (IsFirstNamed (source_file source.now) (IsTooDeep (source_file source.now) (source_library source.now))) }
{
    let graph = model_graph(alloc, survey)?;
    let deep = reach_past(alloc, &graph, 0, MOST_STEPS)?;
    for (k, m) in source.file.models.iter().enumerate() {
        if used[k] && deep[k] {
            return Ok(Some(name_of(alloc, m)?));
        }
    }
    Ok(None)
}

// For each model the places of those that it places.
fn model_graph(alloc: Global, survey: &Survey) -> Result<Graph, AllocError>
    ensures { IfOk result (λ graph. graph ≡ map (λ row. row.items) survey.now.graph.items) }
{
    let mut graph = Graph::new(alloc);
    for row in &survey.graph {
        graph.push_row(row)?;
    }
    Ok(graph)
}

fn name_of(alloc: Global, m: &Model) -> Result<Name, AllocError>
    ensures { IfOk result (λ name. name ≡ m.now.name) }
{
    Name::new(alloc, m.name.bytes())
}
