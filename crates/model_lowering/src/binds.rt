// The nets of ports, from the table of a model to that of a model that it places, and back.
ghost use Rattle.std.specs.Prelude.{◌≡◌, ◌<◌, length, map, Some, slice_get, All};
ghost use Rattle.netlist_spec.specs.Netlist.{Model as SpecModel};
ghost use Rattle.netlist_spec.specs.Placed.{a_model, output_ports};
ghost use Rattle.blif_read.specs.Ids.{IsIdOf};
ghost use Rattle.blif_read.specs.View.{bind_of, name_at};
ghost use Rattle.blif_read.specs.declared.file.Bind.{Bind as ReadBind};
ghost use Rattle.lowering.specs.Nets.{net_in};
ghost use Rattle.model_lowering.specs.Binds.{answered_outside, binds_in, given_inside, note};
ghost use Rattle.source_nets.specs.Ports.{IsSource, source_file};

use blif_read::{Bind, Statement};
use imp_text::{NameId, Names};
use source_nets::{Meaning, PortKind, Source, is_port};

// The words of a `.subckt`, and none of another statement.
pub(crate) fn binds_of(s: &Statement) -> &[Bind]
    ensures { result.now ≡ binds_in s.now }
{
    match s {
        Statement::Subckt { binds, .. } => binds,
        Statement::Names { .. } | Statement::Latch { .. } => &[],
    }
}

// The net of a name, and 0 where the name isn't there.
fn net_of(names: &Names, table: &[u32], name: &[u8]) -> u32
    requires { length table.now ≡ length names.now }
    ensures { result ≡ net_in names.now table.now name.now }
{
    match names.find(name) {
        Some(id) => table[id.0 as usize],
        None => 0,
    }
}

// Notes the net of a name.
fn note(names: &Names, table: &mut [u32], name: &[u8], net: u32)
    requires { length table.old ≡ length names.now }
    ensures { table.new ≡ note names.now name.now net table.old }
{
    if let Some(id) = names.find(name) {
        table[id.0 as usize] = net;
    }
}

// The net of a number's name.
fn net_at(names: &Names, table: &[u32], id: NameId) -> u32
    requires id { IsIdOf names.now id }
    requires table { length table.now ≡ length names.now }
    ensures { result ≡ net_in names.now table.now (name_at names.now id) }
{
    // Names have one number.
    prove!(id.0 < names.len());
    table[id.0 as usize]
}

// Notes the net of a number's name.
fn note_at(names: &Names, table: &mut [u32], id: NameId, net: u32)
    requires id { IsIdOf names.now id }
    requires table { length table.old ≡ length names.now }
    ensures { table.new ≡ note names.now (name_at names.now id) net table.old }
{
    // Names have one number.
    prove!(id.0 < names.len());
    table[id.0 as usize] = net;
}

// Each formal has the net of its actual.
pub(crate) fn give_nets(
    outer: &Names,
    inner: &Names,
    binds: &[Bind],
    table: &[u32],
    inside: &mut [u32],
)
    requires actuals { All (λ (b : ReadBind). IsIdOf outer.now b.actual) binds.now }
    requires table { length table.now ≡ length outer.now }
    requires inside { length inside.old ≡ length inner.now }
    ensures { inside.new ≡ given_inside outer.now inner.now table.now (map (bind_of outer.now) binds.now) inside.old }
{
    for bind in binds {
        let net = net_at(outer, table, bind.actual);
        note(inner, inside, bind.formal.bytes(), net);
    }
}

// Each actual of an output port of the model at a place has the net of its formal.
pub(crate) fn take_nets(
    source: &Source,
    outer: &Names,
    place: usize,
    binds: &[Bind],
    inside: &[u32],
    table: &mut [u32],
)
    requires source { IsSource source.now }
    requires place { place < length source.now.file.now.models.items }
    requires actuals { All (λ (b : ReadBind). IsIdOf outer.now b.actual) binds.now }
    requires table { length table.old ≡ length outer.now }
    requires inside { (c : SpecModel) → slice_get (source_file source.now).models place ≡ Some c → length inside.now ≡ length c.names }
    ensures { (c : SpecModel) → slice_get (source_file source.now).models place ≡ Some c
        → table.new ≡ answered_outside outer.now c.names (output_ports (a_model c)) inside.now (map (bind_of outer.now) binds.now) table.old }
{
    let inner = &source.file.models[place].names;
    for bind in binds {
        let formal = bind.formal.bytes();
        if is_port(source, PortKind::Output, Meaning::Model(place), formal) {
            let net = net_of(inner, inside, formal);
            note_at(outer, table, bind.actual, net);
        }
    }
}
