// Which nodes chains lead to.
ghost use Rattle.std.specs.Prelude.{◌≡◌, ◌<◌, ◌∷◌, [], ℕ, length, All, Contains, IfOk, OnOk, ◌↔◌};
ghost use Rattle.net_graph.specs.Chains.{AreMarked, IsGraph, IsMarked, IsNext, IsReached, LeadsTo, LeadsPast, IsMarkedOr};
ghost use Rattle.net_graph.specs.Search.{Visits};

use crate::graph::Graph;
use std::alloc::{AllocError, Global};

/// Marks at the nodes to which a chain of any length leads from a start.
pub fn reach(alloc: Global, graph: &Graph, start: usize) -> Result<Vec<bool>, AllocError>
    requires graph { IsGraph graph.now }
    requires start { start < length graph.now }
    ensures { IfOk result (λ marks. AreMarked (length graph.now) marks.items (LeadsTo graph.now start)) }
{
    let marks = one_mark(alloc, graph.len(), start)?;
    reach_all(alloc, graph, marks)
}

/// Marks at the nodes to which a chain of more than so many edges leads from a start.
pub fn reach_past(
    alloc: Global,
    graph: &Graph,
    start: usize,
    steps: usize,
) -> Result<Vec<bool>, AllocError>
    requires graph { IsGraph graph.now }
    requires start { start < length graph.now }
    ensures { IfOk result (λ marks. AreMarked (length graph.now) marks.items (LeadsPast graph.now steps start)) }
{
    let mut marks = one_mark(alloc, graph.len(), start)?;
    for step in 0..steps {
        marks = next_marks(alloc, graph, &marks)?;
    }
    let past = next_marks(alloc, graph, &marks)?;
    reach_all(alloc, graph, past)
}

/// Marks at the nodes to which a chain of any length leads from one of the marked ones.
pub fn reach_all(
    alloc: Global,
    graph: &Graph,
    mut marks: Vec<bool>,
) -> Result<Vec<bool>, AllocError>
    requires graph { IsGraph graph.now }
    requires marks { length marks.items ≡ length graph.now }
    ensures { IfOk result (λ all. AreMarked (length graph.now) all.items (IsReached graph.now marks.items)) }
{
    let mut waiting = marked_nodes(alloc, &marks)?;
    while let Some(node) = waiting.pop() {
        visit(graph.row(node), &mut marks, &mut waiting)?;
    }
    Ok(marks)
}

// A mark at one node.
fn one_mark(alloc: Global, size: usize, node: usize) -> Result<Vec<bool>, AllocError>
    requires { node < size }
    ensures { IfOk result (λ marks. AreMarked size marks.items (λ k. k ≡ node)) }
{
    let mut marks = vec![in alloc; false; size]?;
    marks[node] = true;
    Ok(marks)
}

// The nodes that are marked.
fn marked_nodes(alloc: Global, marks: &[bool]) -> Result<Vec<usize>, AllocError>
    ensures { IfOk result (λ nodes. (k : ℕ) → Contains nodes.items k ↔ IsMarked marks.now k) }
{
    let mut nodes = Vec::new(alloc);
    for (node, is_marked) in marks.iter().enumerate() {
        if *is_marked {
            nodes.push(node)?;
        }
    }
    Ok(nodes)
}

// Marks the ends of a node, and keeps those that had no mark.
fn visit(ends: &[usize], marks: &mut [bool], waiting: &mut Vec<usize>) -> Result<(), AllocError>
    requires { All (λ k. k < length marks.old) ends.now }
    ensures { OnOk result (Visits ends.now marks.old waiting.old.items marks.new waiting.new.items) }
{
    for end in ends {
        visit_one(*end, marks, waiting)?;
    }
    Ok(())
}

fn visit_one(end: usize, marks: &mut [bool], waiting: &mut Vec<usize>) -> Result<(), AllocError>
    requires { end < length marks.old }
    ensures { OnOk result (Visits (end ∷ []) marks.old waiting.old.items marks.new waiting.new.items) }
{
    if !marks[end] {
        waiting.push(end)?;
        marks[end] = true;
    }
    Ok(())
}

// Marks at the nodes to which an edge leads from a marked one.
fn next_marks(alloc: Global, graph: &Graph, marks: &[bool]) -> Result<Vec<bool>, AllocError>
    requires graph { IsGraph graph.now }
    requires marks { length marks.now ≡ length graph.now }
    ensures { IfOk result (λ next. AreMarked (length graph.now) next.items (IsNext graph.now marks.now)) }
{
    let mut next = vec![in alloc; false; graph.len()]?;
    for (node, is_marked) in marks.iter().enumerate() {
        if *is_marked {
            mark_ends(graph.row(node), &mut next);
        }
    }
    Ok(next)
}

/// Marks the ends of a node.
pub fn mark_ends(ends: &[usize], marks: &mut [bool])
    requires { All (λ k. k < length marks.old) ends.now }
    ensures { (k : ℕ) → IsMarked marks.new k ↔ IsMarkedOr marks.old ends.now k }
{
    for end in ends {
        marks[*end] = true;
    }
}
