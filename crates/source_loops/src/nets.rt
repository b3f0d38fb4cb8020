// What the statements of a model read and drive, by the numbers of its nets.
ghost use Rattle.std.specs.Prelude.{◌≡◌, List, map, IfOk};
ghost use Rattle.netlist_spec.specs.Covers.{Library};
ghost use Rattle.netlist_spec.specs.Netlist.{File as SpecFile, Located as SpecLocated, Name as Bytes};
ghost use Rattle.netlist_spec.specs.Sound.{combines};
ghost use Rattle.blif_read.specs.Ids.{HasIds};
ghost use Rattle.blif_read.specs.View.{model_of, statement_of};
ghost use Rattle.source_nets.specs.Survey.{IsModelSurvey};
ghost use Rattle.source_loops.specs.Nets.{AreNetsOf, numbers_of};

use crate::given::given_marks;
use blif_read::{Model, Statement};
use imp_text::NameId;
use net_graph::Graph;
use source_nets::{ModelSurvey, NetRows};
use std::alloc::{AllocError, Global};

// For each statement the nets that it reads, those that it drives, and whether it combines. For each net whether it is given.
#[derive(Drop)]
pub(crate) struct ModelNets {
    pub(crate) reads: Graph,
    pub(crate) drives: Graph,
    pub(crate) combines: Vec<bool>,
    pub(crate) given: Vec<bool>,
}

fn numbers(alloc: Global, ids: &[NameId]) -> Result<Vec<usize>, AllocError>
    ensures { IfOk result (λ ns. ns.items ≡ numbers_of ids.now) }
{
    ids.iter().map(|id| id.0 as usize).collect(alloc)
}

fn graph_of(alloc: Global, rows: &NetRows) -> Result<Graph, AllocError>
    ensures { IfOk result (λ graph. graph ≡ map numbers_of rows.now) }
{
    let mut graph = Graph::new(alloc);
    for i in 0..rows.len() {
        let row = numbers(alloc, rows.row(i))?;
        graph.push_row(&row)?;
    }
    Ok(graph)
}

// Whether what a statement drives rests on what it reads within a cycle: a latch shows what it stored before.
pub(crate) fn does_combine(s: &Statement) -> bool
    ensures { (all : List Bytes) → result ≡ combines (statement_of all s.now) }
{
    !matches!(s, Statement::Latch { .. })
}

fn combining_marks(alloc: Global, m: &Model) -> Result<Vec<bool>, AllocError>
    ensures { IfOk result (λ marks. marks.items ≡ map (λ (s : SpecLocated). combines s.what) (model_of m.now).statements) }
{
    let mut marks = Vec::new(alloc);
    for s in &m.statements {
        marks.push(does_combine(&s.what))?;
    }
    Ok(marks)
}

pub(crate) fn nets_of(
    alloc: Global,
    m: &Model,
    survey: &ModelSurvey,
) -> Result<ModelNets, AllocError>
    requires { HasIds m.now }
    ensures { IfOk result (λ nets. (file : SpecFile) (library : Library) → IsModelSurvey file library (model_of m.now) survey.now → AreNetsOf file library (model_of m.now) nets) }
{
    Ok(ModelNets {
        reads: graph_of(alloc, &survey.reads)?,
        drives: graph_of(alloc, &survey.drives)?,
        combines: combining_marks(alloc, m)?,
        given: given_marks(alloc, m)?,
    })
}
