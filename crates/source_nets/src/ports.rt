// The ports of what a `.subckt` places.
ghost use Rattle.std.specs.Prelude.{◌≡◌, length, IfOk, All};
ghost use Rattle.std.specs.List.{AllZip};
ghost use Rattle.netlist_spec.specs.Netlist.{stands_in};
ghost use Rattle.netlist_spec.specs.Placed.{a_linear, a_model, a_table};
ghost use Rattle.blif_read.specs.Ids.{HasIds};
ghost use Rattle.blif_read.specs.View.{model_of};
ghost use Rattle.source_nets.specs.Ports.{IsPortMarks, IsSource, ports_of, source_file, source_library};
ghost use Rattle.source_nets.specs.Survey.{IsMeaningIn, placed_at};

use crate::library_port::is_numbered;
use crate::{Meaning, Source};
use blif_read::Model;
use line_order::NetMarks;
use linear_layer::Linear;
use sbox_table::Table;
use std::alloc::{AllocError, Global};

/// Whether a port is read or driven by the `.subckt`.
#[derive(Clone, Copy, Debug)]
pub enum PortKind {
    Input,
    Output,
}

/// Which names of a model are its input ports, and which its output ports.
#[derive(Drop)]
pub struct PortMarks {
    inputs: NetMarks,
    outputs: NetMarks,
}

// The ports of a model. The names of `.clock` count as inputs.
fn model_marks(alloc: Global, m: &Model) -> Result<PortMarks, AllocError>
    requires { HasIds m.now }
    ensures { IfOk result (λ marks. IsPortMarks m.now marks) }
{
    let mut inputs = NetMarks::new(alloc, &m.names)?;
    inputs.mark_ports(&m.inputs);
    inputs.mark_ports(&m.clocks);
    let mut outputs = NetMarks::new(alloc, &m.names)?;
    outputs.mark_ports(&m.outputs);
    Ok(PortMarks { inputs, outputs })
}

/// The ports of each model.
pub fn port_marks(alloc: Global, models: &[Model]) -> Result<Vec<PortMarks>, AllocError>
    requires { All HasIds models.now }
    ensures { IfOk result (λ marks. AllZip IsPortMarks models.now marks.items) }
{
    let mut marks = Vec::new(alloc);
    for m in models {
        marks.push(model_marks(alloc, m)?)?;
    }
    Ok(marks)
}

fn is_model_port(m: &Model, marks: &PortMarks, kind: PortKind, formal: &[u8]) -> bool
    requires ids { HasIds m.now }
    requires marks { IsPortMarks m.now marks.now }
    ensures { result ≡ stands_in formal.now (ports_of kind (a_model (model_of m.now))) }
{
    match m.names.find(formal) {
        Some(id) => match kind {
            PortKind::Input => marks.inputs.has(id),
            PortKind::Output => marks.outputs.has(id),
        },
        None => false,
    }
}

fn is_table_port(t: &Table, kind: PortKind, formal: &[u8]) -> bool
    ensures { result ≡ stands_in formal.now (ports_of kind (a_table t.now)) }
{
    match kind {
        PortKind::Input => is_numbered(b'i', t.ins as usize, formal),
        PortKind::Output => is_numbered(b'o', t.outs as usize, formal),
    }
}

fn is_linear_port(l: &Linear, kind: PortKind, formal: &[u8]) -> bool
    ensures { result ≡ stands_in formal.now (ports_of kind (a_linear l.now)) }
{
    match kind {
        PortKind::Input => is_numbered(b'i', l.width as usize, formal),
        PortKind::Output => is_numbered(b'o', l.rows.len(), formal),
    }
}

/// Whether a name is a port of what is placed.
pub fn is_port(source: &Source, kind: PortKind, meaning: Meaning, formal: &[u8]) -> bool
    requires source { IsSource source.now }
    requires meaning { IsMeaningIn (source_file source.now) (source_library source.now) meaning }
    ensures { result ≡ stands_in formal.now (ports_of kind (placed_at (source_file source.now) (source_library source.now) meaning)) }
{
    match meaning {
        Meaning::Cell | Meaning::Nothing => false,
        Meaning::Model(k) => {
            is_model_port(&source.file.models[k], &source.ports[k], kind, formal)
        }
        Meaning::Table(k) => is_table_port(&source.tables[k].table, kind, formal),
        Meaning::Linear(k) => is_linear_port(&source.linears[k].layer, kind, formal),
    }
}
