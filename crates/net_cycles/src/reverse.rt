// Graphs whose edges lead the other way.
ghost use Rattle.std.specs.Prelude.{◌≡◌, ◌<◌, [], ◌∷◌, ◌++◌, length, replicate, slice_index_or, slice_set, All, IfOk, OnOk};
ghost use Rattle.net_graph.specs.Chains.{IsGraph};
ghost use Rattle.net_cycles.specs.Reversed.{Adds, IsReversed};

use net_graph::Graph;
use std::alloc::{AllocError, Global};
use std::marker::Model;

// For each node the nodes whose edges lead to it, so far.
#[derive(Drop)]
struct Starts {
    lists: Vec<Vec<usize>>,
}

impl Model for Starts {
    ghost use Rattle.std.specs.Prelude.{ℕ, List, map};

    ghost Value = { List (List ℕ) };

    ghost view = { λ s. map (λ v. v.items) s.lists.items };
}

impl Starts {
    fn new(alloc: Global, nodes: usize) -> Result<Starts, AllocError>
        ensures { IfOk result (λ s. s ≡ replicate nodes []) }
    {
        let mut lists = Vec::new(alloc);
        for node in 0..nodes {
            lists.push(Vec::new(alloc))?;
        }
        Ok(Starts { lists })
    }

    fn push(&mut self, end: usize, node: usize) -> Result<(), AllocError>
        requires { end < length self.old }
        ensures { OnOk result (self.new ≡ slice_set self.old end (slice_index_or self.old end [] ++ node ∷ [])) }
    {
        self.lists[end].push(node)?;
        Ok(())
    }

    // All edges of a node.
    fn add(&mut self, node: usize, ends: &[usize]) -> Result<(), AllocError>
        requires { All (λ k. k < length self.old) ends.now }
        ensures { OnOk result (Adds node ends.now self.old self.new) }
    {
        for end in ends {
            self.push(*end, node)?;
        }
        Ok(())
    }

    fn list(&self, end: usize) -> &[usize]
        requires { end < length self.now }
        ensures { result.now ≡ slice_index_or self.now end [] }
    {
        &self.lists[end]
    }
}

// The graph with each edge turned round.
pub(crate) fn reverse(alloc: Global, graph: &Graph) -> Result<Graph, AllocError>
    requires { IsGraph graph.now }
    ensures { IfOk result (λ back. IsReversed graph.now back) }
{
    let starts = all_starts(alloc, graph)?;
    let mut back = Graph::new(alloc);
    for end in 0..graph.len() {
        back.push_row(starts.list(end))?;
    }
    Ok(back)
}

fn all_starts(alloc: Global, graph: &Graph) -> Result<Starts, AllocError>
    requires { IsGraph graph.now }
    ensures { IfOk result (λ starts. IsReversed graph.now starts) }
{
    let mut starts = Starts::new(alloc, graph.len())?;
    for node in 0..graph.len() {
        starts.add(node, graph.row(node))?;
    }
    Ok(starts)
}
