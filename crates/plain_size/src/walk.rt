// What the nodes of a graph cost to which chains lead from a start.
ghost use Rattle.std.specs.Prelude.{◌≡◌, ◌≤◌, ◌<◌, ◌∷◌, [], length, slice_index_or, All, IfOk, OnOk};
ghost use Rattle.net_graph.specs.Chains.{IsGraph};
ghost use Rattle.plain_size.specs.Walks.{IsReachCost, Walks};

use net_graph::Graph;
use std::alloc::{AllocError, Global};

// No guard has more cells.
pub(crate) const LIMIT: u32 = 1_000_000;

/// Walks through a graph, one after another. The nodes that the last one has met have its stamp; those that it hasn't left
/// yet wait. `sum` is what the nodes cost that it has met, as far as 32 bits can tell.
#[derive(Drop)]
pub(crate) struct Walk {
    stamps: Vec<u32>,
    stamp: u32,
    waiting: Vec<usize>,
    sum: u32,
}

impl Walk {
    /// No walk yet through a graph of so many nodes.
    pub(crate) fn new(alloc: Global, size: usize) -> Result<Walk, AllocError>
        ensures size { IfOk result (λ walk. length walk.stamps.items ≡ size) }
        ensures stamps { IfOk result (λ walk. All (λ s. s ≤ 0) walk.stamps.items) }
    {
        let stamps = vec![in alloc; 0; size]?;
        Ok(Walk {
            stamps,
            stamp: 0,
            waiting: Vec::new(alloc),
            sum: 0,
        })
    }

    /// What the nodes cost to which chains lead from a start, each once. It is None where that passes the limit together
    /// with the total so far, which is the stamp of this walk and above those of all earlier ones.
    pub(crate) fn cost(
        &mut self,
        graph: &Graph,
        costs: &[u32],
        start: usize,
        total: u32,
    ) -> Result<Option<u32>, AllocError>
        requires graph { IsGraph graph.now }
        requires costs { length costs.now ≡ length graph.now }
        requires size { length self.old.stamps.items ≡ length graph.now }
        requires start { start < length graph.now }
        requires small { total ≤ 1000000 }
        requires fresh { All (λ s. s < total) self.old.stamps.items }
        ensures size { length self.new.stamps.items ≡ length self.old.stamps.items }
        ensures stamps { OnOk result (All (λ s. s ≤ total) self.new.stamps.items) }
        ensures cost { IfOk result (IsReachCost graph.now costs.now start total) }
    {
        let room = LIMIT - total;
        self.stamp = total;
        self.sum = 0;
        self.waiting.clear();
        self.meet(start, costs)?;
        'walk: while self.sum <= room {
            let Some(node) = self.waiting.pop() else {
                return Ok(Some(self.sum));
            };
            self.meet_all(graph.row(node), costs)?;
        }
        Ok(None)
    }

    // Meets the ends of a node.
    fn meet_all(&mut self, ends: &[usize], costs: &[u32]) -> Result<(), AllocError>
        requires ends { All (λ k. k < length costs.now) ends.now }
        requires size { length self.old.stamps.items ≡ length costs.now }
        ensures size { length self.new.stamps.items ≡ length self.old.stamps.items }
        ensures walks { OnOk result (Walks costs.now ends.now self.old self.new) }
    {
        for end in ends {
            self.meet(*end, costs)?;
        }
        Ok(())
    }

    // Meets a node: where it has no stamp of this walk yet, it gets one and waits.
    fn meet(&mut self, node: usize, costs: &[u32]) -> Result<(), AllocError>
        requires node { node < length costs.now }
        requires size { length self.old.stamps.items ≡ length costs.now }
        ensures size { length self.new.stamps.items ≡ length self.old.stamps.items }
        ensures walks { OnOk result (Walks costs.now (node ∷ []) self.old self.new) }
    {
        if self.stamps[node] != self.stamp {
            self.waiting.push(node)?;
            self.stamps[node] = self.stamp;
            self.sum = self.sum.saturating_add(costs[node]);
        }
        Ok(())
    }
}
