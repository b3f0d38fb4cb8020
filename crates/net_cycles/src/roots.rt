// For each node the last one of a list to which it leads, by searches in the reversed graph.
ghost use Rattle.std.specs.Prelude.{◌≡◌, ◌<◌, ℕ, length, All, Contains, IfOk, OnOk};
ghost use Rattle.net_graph.specs.Chains.{IsGraph, IsMarked, ends_of};
ghost use Rattle.net_cycles.specs.Roots.{AreRoots, Gathers};

use net_graph::Graph;
use std::alloc::{AllocError, Global};

// Marks at the nodes whose roots are known, and these.
#[derive(Drop)]
struct Roots {
    marks: Vec<bool>,
    roots: Vec<usize>,
}

// From the last place of the list on, all nodes that lead to the node there and have no root yet have it as their root. The
// work is linear in nodes and edges.
pub(crate) fn find_roots(
    alloc: Global,
    back: &Graph,
    order: &[usize],
) -> Result<Vec<usize>, AllocError>
    requires graph { IsGraph back.now }
    requires nodes { All (λ k. k < length back.now) order.now }
    requires each { (k : ℕ) → k < length back.now → Contains order.now k }
    ensures { IfOk result (λ roots. AreRoots back.now order.now roots.items) }
{
    let nodes = back.len();
    let mut roots = Roots {
        marks: vec![in alloc; false; nodes]?,
        roots: vec![in alloc; 0; nodes]?,
    };
    let mut place = order.len();
    while place > 0 {
        place -= 1;
        roots.gather(alloc, back, order[place])?;
    }
    Ok(roots.roots)
}

impl Roots {
    // All nodes without a root that a chain leads to from this one have it as their root.
    fn gather(&mut self, alloc: Global, back: &Graph, root: usize) -> Result<(), AllocError>
        requires graph { IsGraph back.now }
        requires marks { length self.old.marks.items ≡ length back.now }
        requires roots { length self.old.roots.items ≡ length back.now }
        requires root { root < length back.now }
        requires closed { (a b : ℕ) → IsMarked self.old.marks.items a → Contains (ends_of back.now a) b → IsMarked self.old.marks.items b }
        ensures { OnOk result (Gathers back.now root self.old.marks.items self.old.roots.items self.new.marks.items self.new.roots.items) }
    {
        let mut waiting = vec![in alloc; root; 1]?;
        while let Some(node) = waiting.pop() {
            if self.marks[node] {
                continue;
            }
            self.marks[node] = true;
            self.roots[node] = root;
            waiting.extend_from_slice(back.row(node))?;
        }
        Ok(())
    }
}
