// The order in which a depth-first search leaves nodes.
ghost use Rattle.std.specs.Prelude.{◌≡◌, ◌<◌, ◌++◌, ◌^◌, length, IfOk, OnOk};
ghost use Rattle.net_graph.specs.Chains.{IsGraph};
ghost use Rattle.net_cycles.specs.Finished.{AreAllToEnter, IsFinished};
ghost use Rattle.net_cycles.specs.Visits.{opening};

use net_graph::Graph;
use std::alloc::{AllocError, Global};

// A node that is to be entered, or an open one: it is left when all that stands above it is done.
#[derive(Clone, Copy)]
pub(crate) struct Visit {
    pub(crate) node: usize,
    pub(crate) is_open: bool,
}

// The nodes in the order in which the search leaves them. The work is linear in nodes and edges.
pub(crate) fn finish(alloc: Global, graph: &Graph) -> Result<Vec<usize>, AllocError>
    requires { IsGraph graph.now }
    ensures { IfOk result (λ order. IsFinished graph.now order.items) }
{
    let nodes = graph.len();
    let mut marks = vec![in alloc; false; nodes]?;
    let mut order = Vec::new(alloc);
    let mut stack = all_to_enter(alloc, nodes)?;
    while let Some(visit) = stack.pop() {
        if visit.is_open {
            order.push(visit.node)?;
            continue;
        }
        if marks[visit.node] {
            continue;
        }
        marks[visit.node] = true;
        open(graph, visit.node, &mut stack)?;
    }
    Ok(order)
}

// Each node is to be entered.
fn all_to_enter(alloc: Global, nodes: usize) -> Result<Vec<Visit>, AllocError>
    ensures { IfOk result (λ stack. AreAllToEnter nodes stack.items) }
{
    let mut stack = Vec::new(alloc);
    for node in 0..nodes {
        stack.push(Visit {
            node,
            is_open: false,
        })?;
    }
    Ok(stack)
}

// The node is open, and above it its ends are to be entered.
fn open(graph: &Graph, node: usize, stack: &mut Vec<Visit>) -> Result<(), AllocError>
    requires { node < length graph.now }
    ensures opened { OnOk result (stack.new.items ≡ stack.old.items ++ opening graph.now node) }
    ensures room { length stack.new.items < 2 ^ 64 }
{
    stack.push(Visit {
        node,
        is_open: true,
    })?;
    for end in graph.row(node) {
        stack.push(Visit {
            node: *end,
            is_open: false,
        })?;
    }
    Ok(())
}
