// Nodes of a graph in an order in which each stands behind its ends, or the first one on a cycle.
ghost use Rattle.std.specs.Prelude.{◌≡◌, ◌<◌, ◌∷◌, [], ℕ, if◌then◌else◌, length, slice_index_or, IfOk};
ghost use Rattle.net_cycles.specs.Cycles.{IsOnCycle};
ghost use Rattle.net_graph.specs.Chains.{IsGraph, IsMarked, ends_of};
ghost use Rattle.source_models.specs.Cycles.{IsClosed, IsFirstOnCycle, IsPart, IsSorted, Settles};

use net_cycles::first_on_cycle;
use net_graph::Graph;
use net_order::{Settled, settle, walk};
use std::alloc::{AllocError, Global};

// The nodes in such an order, or the first one that has no place in any.
#[derive(Drop)]
pub(crate) enum Sorted {
    Order(Vec<usize>),
    OnCycle(usize),
}

// The work is linear in nodes and edges. Where nodes are left over, each has an edge to one of them, so that a walk over them
// ends in a cycle.
pub(crate) fn sort(alloc: Global, graph: &Graph, marks: &[bool]) -> Result<Sorted, AllocError>
    requires graph { IsGraph graph.now }
    requires marks { length marks.now ≡ length graph.now }
    requires closed { IsClosed graph.now marks.now }
    ensures { IfOk result (IsSorted graph.now marks.now) }
{
    let settled = settle_ends(alloc, graph, marks)?;
    let own_places = places(alloc, graph.len())?;
    let cycle = walk(alloc, &settled.left, graph, &own_places)?;
    match cycle {
        None => Ok(Sorted::Order(settled.order)),
        Some(_) => {
            let node = first_of_marked(alloc, graph, marks)?;
            Ok(Sorted::OnCycle(node))
        }
    }
}

// An order of the marked nodes as far as that goes, and marks at those that are left over.
fn settle_ends(alloc: Global, graph: &Graph, marks: &[bool]) -> Result<Settled, AllocError>
    requires graph { IsGraph graph.now }
    requires marks { length marks.now ≡ length graph.now }
    requires closed { IsClosed graph.now marks.now }
    ensures size { IfOk result (λ s. length s.left.items ≡ length graph.now) }
    ensures settles { IfOk result (λ s. Settles graph.now marks.now s.order.items s.left.items) }
{
    let nodes = graph.len();
    let own = own_rows(alloc, nodes)?;
    let none = vec![in alloc; false; nodes]?;
    settle(alloc, graph, &own, marks, &none)
}

// For each node the node alone.
fn own_rows(alloc: Global, nodes: usize) -> Result<Graph, AllocError>
    ensures size { IfOk result (λ rows. length rows ≡ nodes) }
    ensures own { IfOk result (λ rows. (i : ℕ) → i < nodes → ends_of rows i ≡ i ∷ []) }
{
    let mut rows = Graph::new(alloc);
    for node in 0..nodes {
        rows.push_row(&[node])?;
    }
    Ok(rows)
}

fn places(alloc: Global, nodes: usize) -> Result<Vec<usize>, AllocError>
    ensures size { IfOk result (λ places. length places.items ≡ nodes) }
    ensures own { IfOk result (λ places. (i : ℕ) → i < nodes → slice_index_or places.items i 0 ≡ i) }
{
    (0..nodes).collect(alloc)
}

// The first marked node that is on a cycle, where there is one.
fn first_of_marked(alloc: Global, graph: &Graph, marks: &[bool]) -> Result<usize, AllocError>
    requires graph { IsGraph graph.now }
    requires marks { length marks.now ≡ length graph.now }
    requires closed { IsClosed graph.now marks.now }
    requires some { (k : ℕ) × IsMarked marks.now k × IsOnCycle graph.now k }
    ensures { IfOk result (IsFirstOnCycle graph.now marks.now) }
{
    let part = part_of(alloc, graph, marks)?;
    let first = first_on_cycle(alloc, &part)?;
    match first {
        Some(node) => Ok(node),
        None => unreachable!(),
    }
}

// The graph without the edges of nodes that have no mark.
fn part_of(alloc: Global, graph: &Graph, marks: &[bool]) -> Result<Graph, AllocError>
    requires { length marks.now ≡ length graph.now }
    ensures { IfOk result (λ part. IsPart graph.now marks.now (length graph.now) part) }
{
    let mut part = Graph::new(alloc);
    for node in 0..graph.len() {
        part.push_row(ends_if(marks[node], graph, node))?;
    }
    Ok(part)
}

fn ends_if(is_marked: bool, graph: &Graph, node: usize) -> &[usize]
    requires { node < length graph.now }
    ensures { result.now ≡ (if is_marked then ends_of graph.now node else []) }
{
    if is_marked { graph.row(node) } else { &[] }
}
