// Marks of the nets that a model reads and drives.
ghost use Rattle.std.specs.Prelude.{◌≡◌, ◌<◌, ◌++◌, List, length, map, All, IfOk};
ghost use Rattle.std.specs.List.{flat_map};
ghost use Rattle.netlist_spec.specs.Netlist.{Name as Bytes};
ghost use Rattle.netlist_spec.specs.Sound.{driven_nets, read_nets};
ghost use Rattle.imp_text.specs.declared.names.NameId.{NameId as Id};
ghost use Rattle.blif_read.specs.Ids.{HasIds, IsIdOf};
ghost use Rattle.blif_read.specs.View.{model_of, name_at};
ghost use Rattle.line_order.specs.Marks.{Marks};
ghost use Rattle.source_nets.specs.Ports.{source_file, source_library};
ghost use Rattle.source_nets.specs.Survey.{IsModelSurvey};

use blif_read::{Model, Name, NameId, Names};
use line_order::{NetMarks, declared_marks};
use source_nets::{ModelSurvey, NetRows, Source};
use std::alloc::{AllocError, Global};

// The name of a net.
pub(crate) fn name_of(alloc: Global, names: &Names, net: NameId) -> Result<Name, AllocError>
    requires { IsIdOf names.now net }
    ensures { IfOk result (λ name. name ≡ name_at names.now net) }
{
    // Each of the names has 1 to 255 bytes.
    prove!(net.0 < names.len());
    Name::new(alloc, names.get(net))
}

fn mark_nets(marks: &mut NetMarks, nets: &[NameId])
    requires { All (λ (id : Id). id.0 < length marks.old) nets.now }
    ensures size { length marks.new ≡ length marks.old }
    ensures marked { (all listed : List Bytes) → Marks all marks.old listed → Marks all marks.new (listed ++ map (name_at all) nets.now) }
{
    for net in nets {
        marks.mark(*net);
    }
}

fn mark_rows(marks: &mut NetMarks, rows: &NetRows)
    requires { All (λ (ids : List Id). All (λ (id : Id). id.0 < length marks.old) ids) rows.now }
    ensures size { length marks.new ≡ length marks.old }
    ensures marked { (all listed : List Bytes) → Marks all marks.old listed → Marks all marks.new (listed ++ flat_map (map (name_at all)) rows.now) }
{
    for i in 0..rows.len() {
        mark_nets(marks, rows.row(i));
    }
}

/// The nets that the statements of a model read are marked, and its outputs. `survey` is that of the model.
pub fn read_marks(
    alloc: Global,
    source: &Source,
    m: &Model,
    survey: &ModelSurvey,
) -> Result<NetMarks, AllocError>
    requires ids { HasIds m.now }
    requires survey { IsModelSurvey (source_file source.now) (source_library source.now) (model_of m.now) survey.now }
    ensures { IfOk result (λ marks. Marks m.now.names marks (read_nets (source_file source.now) (source_library source.now) (model_of m.now))) }
{
    let mut marks = NetMarks::new(alloc, &m.names)?;
    mark_rows(&mut marks, &survey.reads);
    marks.mark_ports(&m.outputs);
    Ok(marks)
}

// The nets that a model drives are marked: its inputs and clocks, and what its statements drive.
pub(crate) fn driven_marks(
    alloc: Global,
    source: &Source,
    m: &Model,
    survey: &ModelSurvey,
) -> Result<NetMarks, AllocError>
    requires ids { HasIds m.now }
    requires survey { IsModelSurvey (source_file source.now) (source_library source.now) (model_of m.now) survey.now }
    ensures { IfOk result (λ marks. Marks m.now.names marks (driven_nets (source_file source.now) (source_library source.now) (model_of m.now))) }
{
    let mut marks = declared_marks(alloc, m)?;
    mark_rows(&mut marks, &survey.drives);
    Ok(marks)
}
