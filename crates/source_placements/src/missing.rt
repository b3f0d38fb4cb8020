// The input ports that a `.subckt` doesn't give.
ghost use Rattle.std.specs.Prelude.{◌≡◌, ◌∷◌, find, map, not, decimal, All, IfOk};
ghost use Rattle.netlist_spec.specs.Netlist.{stands_in};
ghost use Rattle.netlist_spec.specs.Placed.{a_model, input_ports, numbered_ports};
ghost use Rattle.blif_read.specs.Ids.{HasIds, IsIdOf};
ghost use Rattle.blif_read.specs.View.{model_of, name_at};
ghost use Rattle.blif_read.specs.declared.file.Port.{Port as ReadPort};
ghost use Rattle.source_nets.specs.Ports.{IsSource, source_file, source_library};
ghost use Rattle.source_nets.specs.Survey.{IsMeaningIn, placed_at};

use crate::formals::is_given;
use blif_read::{Model, Name, NameId, Names, Port};
use source_nets::{Meaning, NameIndex, Source};
use std::alloc::{AllocError, Global};

// The first input port of what is placed that isn't among the given ones.
pub(crate) fn missing_port(
    alloc: Global,
    source: &Source,
    meaning: Meaning,
    given: &NameIndex,
) -> Result<Option<Name>, AllocError>
    requires source { IsSource source.now }
    requires meaning { IsMeaningIn (source_file source.now) (source_library source.now) meaning }
    ensures { IfOk result (λ found. found ≡ find (λ p. not (stands_in p given.now)) (input_ports (placed_at (source_file source.now) (source_library source.now) meaning))) }
{
    match meaning {
        Meaning::Cell | Meaning::Nothing => Ok(None),
        Meaning::Model(k) => missing_of_model(alloc, &source.file.models[k], given),
        Meaning::Table(k) => {
            let table = &source.tables[k].table;
            missing_number(alloc, table.ins, given)
        }
        Meaning::Linear(k) => {
            let layer = &source.linears[k].layer;
            missing_number(alloc, layer.width, given)
        }
    }
}

// The ports of a model: its inputs, then its clocks.
fn missing_of_model(alloc: Global, m: &Model, given: &NameIndex) -> Result<Option<Name>, AllocError>
    requires { HasIds m.now }
    ensures { IfOk result (λ found. found ≡ find (λ p. not (stands_in p given.now)) (input_ports (a_model (model_of m.now)))) }
{
    if let Some(name) = missing_among(alloc, &m.names, &m.inputs, given)? {
        return Ok(Some(name));
    }
    missing_among(alloc, &m.names, &m.clocks, given)
}

fn missing_among(
    alloc: Global,
    names: &Names,
    ports: &[Port],
    given: &NameIndex,
) -> Result<Option<Name>, AllocError>
    requires { All (λ (p : ReadPort). IsIdOf names.now p.name) ports.now }
    ensures { IfOk result (λ found. found ≡ find (λ p. not (stands_in p given.now)) (map (λ (p : ReadPort). name_at names.now p.name) ports.now)) }
{
    for port in ports {
        if !is_given(given, names.get(port.name)) {
            return Ok(Some(name_of(alloc, names, port.name)?));
        }
    }
    Ok(None)
}

fn name_of(alloc: Global, names: &Names, id: NameId) -> Result<Name, AllocError>
    requires { IsIdOf names.now id }
    ensures { IfOk result (λ name. name ≡ name_at names.now id) }
{
    // Each of the names has 1 to 255 bytes.
    prove!(id.0 < names.len());
    Name::new(alloc, names.get(id))
}

// The ports of a library entry: `i0`, `i1`, ..
fn missing_number(alloc: Global, count: u8, given: &NameIndex) -> Result<Option<Name>, AllocError>
    ensures { IfOk result (λ found. found ≡ find (λ p. not (stands_in p given.now)) (numbered_ports 105 count)) }
{
    for i in 0..count {
        let name = input_name(alloc, i)?;
        if !is_given(given, name.bytes()) {
            return Ok(Some(name));
        }
    }
    Ok(None)
}

fn input_name(alloc: Global, i: u8) -> Result<Name, AllocError>
    ensures { IfOk result (λ name. name ≡ 105 ∷ decimal i) }
{
    let text = format!(in alloc; "i{i}")?;
    Name::new(alloc, text.as_bytes())
}
