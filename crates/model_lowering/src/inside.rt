// Statements as gates, with the models that they place.
ghost use Rattle.std.specs.Prelude.{◌≡◌, ◌<◌, Some, length, slice_get, OnOk};
ghost use Rattle.netlist_spec.specs.Netlist.{Model as SpecModel, Statement as SpecStatement};
ghost use Rattle.lowering.specs.Lowers.{Lowers};
ghost use Rattle.model_lowering.specs.Inside.{CanLowerAll, CanLowerModel, IsReady, LowersModel};
ghost use Rattle.source_loops.specs.Orders.{statement_at};
ghost use Rattle.source_nets.specs.Ports.{source_file, source_library};
ghost use Rattle.source_nets.specs.Survey.{Means};
ghost use Rattle.source_nets.specs.declared.types.Meaning.TheVariants.{Model as ModelAt};

use crate::binds::{binds_of, give_nets, take_nets};
use gate_net::GateNet;
use lowering::lower_cell;
use source_check::Checked;
use source_nets::{Meaning, Source};
use std::alloc::{AllocError, Global};

/// Appends gates for the model at a place of the file, which is used and isn't the main one. `inside` has a place for each of
/// its names, by number. When the call begins, the nets of its input ports stand there, and at its end the nets of all that it
/// drives. No chain of `.subckt` from the model has more than `fuel` steps.
#[cycle(inside)]
pub fn lower_model(
    alloc: Global,
    source: &Source,
    checked: &Checked,
    k: usize,
    fuel: u32,
    inside: &mut [u32],
    net: &mut GateNet,
) -> Result<(), AllocError>
    requires ready { IsReady source.now checked.now }
    requires place { k < length source.now.file.now.models.items }
    requires can { (m : SpecModel) → slice_get (source_file source.now).models k ≡ Some m → CanLowerModel (source_file source.now) (source_library source.now) m fuel net.old inside.old }
    ensures { OnOk result ((m : SpecModel) → slice_get (source_file source.now).models k ≡ Some m → LowersModel (source_file source.now) (source_library source.now) m net.old inside.old net.new inside.new) }
{
    let order = &checked.orders[k];
    for i in order {
        lower_statement(alloc, source, checked, k, *i, fuel, inside, net)?;
    }
    Ok(())
}

/// Appends gates for the statement at place `i` of the model at place `k`, one that combines. `table` has a place for each name
/// of that model, by number, and is given the nets of what the statement drives. No chain of `.subckt` from the model has more
/// than `fuel` steps.
#[cycle(inside)]
pub fn lower_statement(
    alloc: Global,
    source: &Source,
    checked: &Checked,
    k: usize,
    i: usize,
    fuel: u32,
    table: &mut [u32],
    net: &mut GateNet,
) -> Result<(), AllocError>
    requires ready { IsReady source.now checked.now }
    requires place { k < length source.now.file.now.models.items }
    requires statement { (m : SpecModel) → slice_get (source_file source.now).models k ≡ Some m → i < length m.statements }
    requires can { (m : SpecModel) (s : SpecStatement) → slice_get (source_file source.now).models k ≡ Some m → statement_at m i ≡ Some s
        → CanLowerAll (source_file source.now) (source_library source.now) m s fuel net.old table.old }
    ensures { OnOk result ((m : SpecModel) (s : SpecStatement) → slice_get (source_file source.now).models k ≡ Some m → statement_at m i ≡ Some s
        → Lowers (source_file source.now) (source_library source.now) m.names s net.old table.old net.new table.new) }
{
    let m = &source.file.models[k];
    let meaning = checked.survey.models[k].meaning(i);
    match meaning {
        Meaning::Model(place) => {
            lower_placed(alloc, source, checked, k, i, place, fuel, table, net)
        }
        _ => lower_cell(alloc, source, m, i, meaning, table, net),
    }
}

// The same for a `.subckt` that places the model at `place`.
#[cycle(inside)]
fn lower_placed(
    alloc: Global,
    source: &Source,
    checked: &Checked,
    k: usize,
    i: usize,
    place: usize,
    fuel: u32,
    table: &mut [u32],
    net: &mut GateNet,
) -> Result<(), AllocError>
    requires ready { IsReady source.now checked.now }
    requires model { k < length source.now.file.now.models.items }
    requires statement { (m : SpecModel) → slice_get (source_file source.now).models k ≡ Some m → i < length m.statements }
    requires placed { place < length source.now.file.now.models.items }
    requires means { (m : SpecModel) (s : SpecStatement) → slice_get (source_file source.now).models k ≡ Some m → statement_at m i ≡ Some s
        → Means (source_file source.now) (source_library source.now) s (ModelAt place) }
    requires can { (m : SpecModel) (s : SpecStatement) → slice_get (source_file source.now).models k ≡ Some m → statement_at m i ≡ Some s
        → CanLowerAll (source_file source.now) (source_library source.now) m s fuel net.old table.old }
    ensures { OnOk result ((m : SpecModel) (s : SpecStatement) → slice_get (source_file source.now).models k ≡ Some m → statement_at m i ≡ Some s
        → Lowers (source_file source.now) (source_library source.now) m.names s net.old table.old net.new table.new) }
{
    let outer = &source.file.models[k];
    let binds = binds_of(&outer.statements[i].what);
    let inner = &source.file.models[place];
    let mut nets = vec![in alloc; 0u32; inner.names.len() as usize]?;
    let inside = nets.as_mut_slice();
    give_nets(&outer.names, &inner.names, binds, table, inside);
    lower_model(alloc, source, checked, place, fuel - 1, inside, net)?;
    take_nets(source, &outer.names, place, binds, inside, table);
    Ok(())
}
