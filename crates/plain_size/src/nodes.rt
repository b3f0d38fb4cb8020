// The node that a net leads to: the statement that drives it, or the word that holds its latch.
ghost use Rattle.std.specs.Prelude.{◌≡◌, ◌<◌, ◌+◌, ◌^◌, ◌∷◌, [], ℕ, List, Vec, length, map, replicate, None, All, IfOk};
ghost use Rattle.std.specs.declared.alloc.Global.{Global as Heap};
ghost use Rattle.imp_text.specs.declared.names.NameId.{NameId as Id};
ghost use Rattle.netlist_spec.specs.Netlist.{Name as Bytes};
ghost use Rattle.netlist_spec.specs.Models.{latch_outputs as latch_outputs_of};
ghost use Rattle.netlist_spec.specs.Sound.{combines as combines_of};
ghost use Rattle.blif_read.specs.Ids.{HasIds, IsIdOf};
ghost use Rattle.blif_read.specs.View.{model_of, name_at, statement_of};
ghost use Rattle.plain_size.specs.Nodes.{AreNodes, ArePointed, HasRows, lead_of, combines_in, driven_by, numbers, shown_by};

use blif_read::{Model, NameId, Statement};
use encode_state::latch_outputs;
use source_nets::ModelSurvey;
use std::alloc::{AllocError, Global};

/// The node of each net. The statements of a model are the first nodes, and then come words over its latches. A net has the
/// statement that combines and drives it, or the word that holds a latch that shows it.
pub(crate) fn net_nodes(
    alloc: Global,
    m: &Model,
    survey: &ModelSurvey,
    words: &[Vec<u32>],
) -> Result<Vec<Option<usize>>, AllocError>
    requires ids { HasIds m.now }
    requires rows { HasRows m.now survey.now }
    requires latches { All (λ (w : Vec ℕ Heap). All (λ i. i < length (latch_outputs_of (model_of m.now))) w.items) words.now }
    ensures { IfOk result (λ nodes. (shown : List Id) × (map (name_at m.now.names) shown ≡ latch_outputs_of (model_of m.now)) × All (IsIdOf m.now.names) shown
        × AreNodes (length m.now.names) (length m.now.statements.items + length words.now) (lead_of m.now survey.now shown (map (λ (w : Vec ℕ Heap). w.items) words.now)) nodes.items) }
{
    let mut nodes = no_nodes(alloc, m.names.len() as usize)?;
    let shown = latch_outputs(alloc, m)?;
    point_driven(m, survey, &mut nodes);
    point_shown(&shown, words, m.statements.len(), &mut nodes);
    Ok(nodes)
}

// Nets that have no node yet.
fn no_nodes(alloc: Global, nets: usize) -> Result<Vec<Option<usize>>, AllocError>
    ensures { IfOk result (λ nodes. nodes.items ≡ replicate nets None) }
{
    vec![in alloc; None; nets]
}

// Points the nets that statements drive at the statements.
fn point_driven(m: &Model, survey: &ModelSurvey, nodes: &mut [Option<usize>])
    requires rows { HasRows m.now survey.now }
    requires size { length nodes.old ≡ length m.now.names }
    ensures { (lead : ℕ → List ℕ) → ((j : ℕ) → j < length m.now.statements.items → lead j ≡ driven_by m.now.statements.items survey.now.drives j)
        → AreNodes (length m.now.names) 0 lead nodes.old → AreNodes (length m.now.names) (length m.now.statements.items) lead nodes.new }
{
    for (j, s) in m.statements.iter().enumerate() {
        if combines(&s.what) {
            point(survey.drives.row(j), j, nodes);
        }
    }
}

// Whether a statement combines nets, as all but latches do.
fn combines(s: &Statement) -> bool
    ensures { result ≡ combines_in s.now }
{
    !matches!(s, Statement::Latch { .. })
}

// Points the nets that the latches of words show at the words, which are nodes from the first one on.
fn point_shown(shown: &[NameId], words: &[Vec<u32>], first: usize, nodes: &mut [Option<usize>])
    requires shown { All (λ (id : Id). id.0 < length nodes.old) shown.now }
    requires latches { All (λ (w : Vec ℕ Heap). All (λ i. i < length shown.now) w.items) words.now }
    requires room { first < 2 ^ 63 }
    ensures { (lead : ℕ → List ℕ) → ((w : ℕ) → w < length words.now → lead (first + w) ≡ shown_by shown.now (map (λ (v : Vec ℕ Heap). v.items) words.now) w)
        → AreNodes (length nodes.old) first lead nodes.old → AreNodes (length nodes.old) (first + length words.now) lead nodes.new }
{
    for (w, word) in words.iter().enumerate() {
        point_latches(shown, word, first + w, nodes);
    }
}

// Points the nets that the latches of a word show at a node.
fn point_latches(shown: &[NameId], word: &[u32], node: usize, nodes: &mut [Option<usize>])
    requires shown { All (λ (id : Id). id.0 < length nodes.old) shown.now }
    requires latches { All (λ i. i < length shown.now) word.now }
    ensures { ArePointed (shown_by shown.now (word.now ∷ []) 0) node nodes.old nodes.new }
{
    for i in word {
        let net = shown[*i as usize];
        nodes[net.0 as usize] = Some(node);
    }
}

// Points some nets at a node.
fn point(nets: &[NameId], node: usize, nodes: &mut [Option<usize>])
    requires { All (λ (id : Id). id.0 < length nodes.old) nets.now }
    ensures { ArePointed (numbers nets.now) node nodes.old nodes.new }
{
    for net in nets {
        nodes[net.0 as usize] = Some(node);
    }
}
