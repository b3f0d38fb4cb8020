// The first node on a cycle.
ghost use Rattle.std.specs.Prelude.{◌≡◌, ◌<◌, ◌↔◌, ℕ, length, slice_index_or, All, Contains, IfNone, IfOk, IfSome, IsTrue};
ghost use Rattle.net_graph.specs.Chains.{IsGraph};
ghost use Rattle.net_cycles.specs.Cycles.{IsFirstOnCycle, IsOnCycle};
ghost use Rattle.net_cycles.specs.Roots.{HasRootedEdge, IsFirstRooted};

use crate::finish::finish;
use crate::reverse::reverse;
use crate::roots::find_roots;
use net_graph::Graph;
use std::alloc::{AllocError, Global};

/// The first node from which a chain of at least one edge leads back to itself, and none where there is no such node. The
/// work is linear in nodes and edges. (Kosaraju's algorithm for strongly connected components: an edge is part of a cycle where
/// both its nodes have one root.)
pub fn first_on_cycle(alloc: Global, graph: &Graph) -> Result<Option<usize>, AllocError>
    requires { IsGraph graph.now }
    ensures none { IfOk result (λ told. IfNone told ((n : ℕ) → IsOnCycle graph.now n → ⊥)) }
    ensures first { IfOk result (λ told. IfSome told (IsFirstOnCycle graph.now)) }
{
    let order = finish(alloc, graph)?;
    let back = reverse(alloc, graph)?;
    let roots = find_roots(alloc, &back, &order)?;
    Ok(first_rooted(graph, &roots))
}

// The first node from which an edge leads to one with the same root.
fn first_rooted(graph: &Graph, roots: &[usize]) -> Option<usize>
    requires graph { IsGraph graph.now }
    requires roots { length roots.now ≡ length graph.now }
    ensures none { IfNone result ((n : ℕ) → n < length graph.now → HasRootedEdge graph.now roots.now n → ⊥) }
    ensures first { IfSome result (IsFirstRooted graph.now roots.now) }
{
    for node in 0..graph.len() {
        if has_root(graph.row(node), roots, roots[node]) {
            return Some(node);
        }
    }
    None
}

// Whether one of these nodes has this root.
fn has_root(ends: &[usize], roots: &[usize], root: usize) -> bool
    requires { All (λ k. k < length roots.now) ends.now }
    ensures { IsTrue result ↔ ((b : ℕ) × Contains ends.now b × (slice_index_or roots.now b 0 ≡ root)) }
{
    for end in ends {
        if roots[*end] == root {
            return true;
        }
    }
    false
}

#[cfg(test)]
mod tests {
    use super::*;
    use std::test::Fail;

    // Each node has an edge to the next one, and the last one has one to this node.
    fn chain(alloc: Global, nodes: usize, last: usize) -> Result<Graph, AllocError>
        requires { last < nodes }
        ensures { IfOk result IsGraph }
    {
        let mut graph = Graph::new(alloc);
        for node in 0..nodes {
            let end = if node + 1 < nodes { node + 1 } else { last };
            graph.push_row(&[end])?;
        }
        Ok(graph)
    }

    #[test]
    fn a_chain_that_leads_back(rt: HostRuntime) -> Result<(), Fail> {
        for (nodes, last) in [(1, 0), (5, 4), (5, 2), (5, 0), (200_000, 199_999)] {
            if last < nodes {
                let graph = chain(rt.alloc(), nodes, last)?;
                assert_eq!(rt; first_on_cycle(rt.alloc(), &graph)?, Some(last));
            }
        }
        Ok(())
    }

    #[test]
    fn no_cycle(rt: HostRuntime) -> Result<(), Fail> {
        let mut graph = Graph::new(rt.alloc());
        graph.push_row(&[1, 1])?;
        graph.push_row(&[])?;
        assert_eq!(rt; first_on_cycle(rt.alloc(), &graph)?, None);
        Ok(())
    }
}
