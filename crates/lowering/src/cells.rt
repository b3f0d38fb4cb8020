// Statements that place no model, as gates.
ghost use Rattle.std.specs.Prelude.{◌≡◌, ◌<◌, None, Some, length, slice_get, All, IsTrue, OnOk};
ghost use Rattle.netlist_spec.specs.Netlist.{Located};
ghost use Rattle.netlist_spec.specs.Sound.{combines as combines_of};
ghost use Rattle.blif_read.specs.Ids.{HasIds, IsIdOf, ids_in};
ghost use Rattle.blif_read.specs.View.{model_of, statement_of};
ghost use Rattle.source_nets.specs.Graph.{model_place};
ghost use Rattle.source_nets.specs.Ports.{source_file, source_library};
ghost use Rattle.source_nets.specs.Survey.{IsMeaningIn, Means};
ghost use Rattle.lowering.specs.Lowers.{CanLower, Lowers};

use crate::covers::lower_names;
use crate::ports::{lower_linear, lower_table};
use blif_read::{Model, Statement};
use gate_net::GateNet;
use source_nets::{Meaning, Source};
use std::alloc::{AllocError, Global};

// Appends gates for a statement of a model, and notes the nets of what it drives.
fn lower_stated(
    alloc: Global,
    source: &Source,
    m: &Model,
    s: &Statement,
    meaning: Meaning,
    table: &mut [u32],
    net: &mut GateNet,
) -> Result<(), AllocError>
    requires ids { All (IsIdOf m.now.names) (ids_in s.now) }
    requires meaning { Means (source_file source.now) (source_library source.now) (statement_of m.now.names s.now) meaning }
    requires within { IsMeaningIn (source_file source.now) (source_library source.now) meaning }
    requires no_model { model_place meaning ≡ None }
    requires combines { IsTrue (combines_of (statement_of m.now.names s.now)) }
    requires can { CanLower (source_file source.now) (source_library source.now) m.now.names (statement_of m.now.names s.now) net.old table.old }
    ensures { OnOk result
        (Lowers (source_file source.now) (source_library source.now) m.now.names (statement_of m.now.names s.now) net.old table.old net.new table.new) }
{
    match s {
        Statement::Names { ins, out, cover } => { lower_names(alloc, ins, *out, cover, table, net) }
        Statement::Latch { .. } => unreachable!(),
        Statement::Subckt { binds, .. } => match meaning {
            Meaning::Table(k) => { lower_table(alloc, &source.tables[k].table, binds, table, net) }
            Meaning::Linear(k) => {
                lower_linear(alloc, &source.linears[k].layer, binds, table, net)
            }
            _ => unreachable!(),
        },
    }
}

/// Appends gates for the statement of a model at a place, a `.names` or a `.subckt` of an S-box or a linear layer, and
/// notes the nets of what it drives. The table has the net of each name of the model, by the name's number.
pub fn lower_cell(
    alloc: Global,
    source: &Source,
    m: &Model,
    i: usize,
    meaning: Meaning,
    table: &mut [u32],
    net: &mut GateNet,
) -> Result<(), AllocError>
    requires place { i < length m.now.statements.items }
    requires ids { HasIds m.now }
    requires meaning { (s : Located) → slice_get (model_of m.now).statements i ≡ Some s → Means (source_file source.now) (source_library source.now) s.what meaning }
    requires within { IsMeaningIn (source_file source.now) (source_library source.now) meaning }
    requires no_model { model_place meaning ≡ None }
    requires combines { (s : Located) → slice_get (model_of m.now).statements i ≡ Some s → IsTrue (combines_of s.what) }
    requires can { (s : Located) → slice_get (model_of m.now).statements i ≡ Some s
        → CanLower (source_file source.now) (source_library source.now) m.now.names s.what net.old table.old }
    ensures lowered { OnOk result ((s : Located) → slice_get (model_of m.now).statements i ≡ Some s
        → Lowers (source_file source.now) (source_library source.now) m.now.names s.what net.old table.old net.new table.new) }
{
    lower_stated(alloc, source, m, &m.statements[i].what, meaning, table, net)
}
