// Cones of a source as a graph.
ghost use Rattle.std.specs.Prelude.{◌≡◌, ◌<◌, ◌+◌, ◌++◌, [], ℕ, List, Vec, map, length, replicate, All, IfOk, OnOk};
ghost use Rattle.std.specs.declared.alloc.Global.{Global as Heap};
ghost use Rattle.imp_text.specs.declared.names.NameId.{NameId as Id};
ghost use Rattle.netlist_spec.specs.Models.{latch_outputs as latch_outputs_of};
ghost use Rattle.netlist_spec.specs.Sound.{HasOneDriverEach};
ghost use Rattle.blif_read.specs.Ids.{HasIds};
ghost use Rattle.blif_read.specs.View.{model_of};
ghost use Rattle.source_nets.specs.Survey.{IsModelSurvey};
ghost use Rattle.plain_size.specs.Cones.{AreCones, AreNodeCosts, CanWalk, Source, StandOnce, read_words};
ghost use Rattle.plain_size.specs.Edges.{ends_in};
ghost use Rattle.plain_size.specs.Nodes.{HasRows};

use crate::nodes::net_nodes;
use blif_read::{Model, NameId};
use net_graph::Graph;
use source_nets::{ModelSurvey, NetRows};
use std::alloc::{AllocError, Global};

/// The nodes of the nets of a model, the edges between nodes, and what each node costs.
#[derive(Drop)]
pub(crate) struct Cones {
    pub(crate) nodes: Vec<Option<usize>>,
    pub(crate) graph: Graph,
    pub(crate) costs: Vec<u32>,
}

/// The cones of a model, from what its nodes cost: its statements, and then words over its latches.
pub(crate) fn source_cones(
    alloc: Global,
    m: &Model,
    survey: &ModelSurvey,
    costs: Vec<u32>,
    words: &[Vec<u32>],
) -> Result<Cones, AllocError>
    requires ids { HasIds m.now }
    requires rows { HasRows m.now survey.now }
    requires costs { length costs.items ≡ length m.now.statements.items + length words.now }
    requires latches { All (λ (w : Vec ℕ Heap). All (λ i. i < length (latch_outputs_of (model_of m.now))) w.items) words.now }
    ensures walk { IfOk result CanWalk }
    ensures nets { IfOk result (λ cones. length cones.nodes.items ≡ length m.now.names) }
    ensures cones { (p : Source) → p.m ≡ model_of m.now → read_words p.mode p.state ≡ map (λ (w : Vec ℕ Heap). w.items) words.now
        → IsModelSurvey p.file p.library p.m survey.now → HasOneDriverEach p.file p.library p.m → StandOnce (length (latch_outputs_of p.m)) (read_words p.mode p.state) → AreNodeCosts p costs.items
        → IfOk result (AreCones p) }
{
    // The names are distinct.
    let _names = m.names.len();
    let nodes = net_nodes(alloc, m, survey, words)?;
    let graph = edges(alloc, &nodes, &survey.reads, words.len())?;
    Ok(Cones {
        nodes,
        graph,
        costs,
    })
}

// Edges from each statement to the nodes of the nets that it reads, and from so many words none.
fn edges(
    alloc: Global,
    nodes: &[Option<usize>],
    reads: &NetRows,
    words: usize,
) -> Result<Graph, AllocError>
    requires { All (λ (row : List Id). All (λ (id : Id). id.0 < length nodes.now) row) reads.now }
    ensures { IfOk result (λ graph. graph ≡ map (ends_in nodes.now) reads.now ++ replicate words []) }
{
    let mut graph = statement_edges(alloc, nodes, reads)?;
    for _ in 0..words {
        graph.push_row(&[])?;
    }
    Ok(graph)
}

fn statement_edges(
    alloc: Global,
    nodes: &[Option<usize>],
    reads: &NetRows,
) -> Result<Graph, AllocError>
    requires { All (λ (row : List Id). All (λ (id : Id). id.0 < length nodes.now) row) reads.now }
    ensures { IfOk result (λ graph. graph ≡ map (ends_in nodes.now) reads.now) }
{
    let mut graph = Graph::new(alloc);
    for j in 0..reads.len() {
        let ends = ends(alloc, nodes, reads.row(j))?;
        graph.push_row(&ends)?;
    }
    Ok(graph)
}

// The nodes of some nets.
fn ends(alloc: Global, nodes: &[Option<usize>], nets: &[NameId]) -> Result<Vec<usize>, AllocError>
    requires { All (λ (id : Id). id.0 < length nodes.now) nets.now }
    ensures { IfOk result (λ ends. ends.items ≡ ends_in nodes.now nets.now) }
{
    let mut ends = Vec::new(alloc);
    for net in nets {
        if let Some(node) = nodes[net.0 as usize] {
            ends.push(node)?;
        }
    }
    Ok(ends)
}
