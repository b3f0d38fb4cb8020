// What is known of the nets of a model when the pass is done.
ghost use Rattle.std.specs.Prelude.{◌≡◌, ◌≤◌, [], filter_map, length, map, IfOk};
ghost use Rattle.netlist_spec.specs.Models.{gates_of, output_nets};
ghost use Rattle.netlist_spec.specs.Ordered.{cell_nets};
ghost use Rattle.imp_text.specs.declared.names.NameId.{NameId as Id};
ghost use Rattle.blif_read.specs.declared.file.Located.{Located as ReadLocated};
ghost use Rattle.blif_read.specs.declared.file.Port.{Port as ReadPort};
ghost use Rattle.blif_read.specs.Ids.{HasIds};
ghost use Rattle.blif_read.specs.View.{model_of};
ghost use Rattle.line_order.specs.Marks.{Marks};
ghost use Rattle.audit_laws.specs.Along.{bits_along};
ghost use Rattle.audit_laws.specs.FirstBits.{latch_bits};
ghost use Rattle.independence_audit.specs.Kept.{Keeps};
ghost use Rattle.independence_audit.specs.Known.{IsKnown, input_of as input_of_read, output_of as output_of_read};

use crate::kept::Kept;
use crate::pass::pass_back;
use crate::table::named_table;
use blif_read::{Located, Model, NameId, Port, Statement};
use line_order::NetMarks;
use std::alloc::{AllocError, Global};

// By the numbers of nets: the bits of a `.names` with this output and of a latch with this output, which nets are outputs, and
// which of them cells drive.
#[derive(Drop)]
pub(crate) struct Known {
    pub(crate) gates: Vec<Kept>,
    pub(crate) latches: Vec<Kept>,
    pub(crate) outputs: NetMarks,
    pub(crate) cells: NetMarks,
}

fn input_of(s: &Statement) -> Option<NameId>
    ensures { result ≡ input_of_read s.now }
{
    match s {
        Statement::Latch { d, .. } => Some(*d),
        _ => None,
    }
}

fn output_of(s: &Statement) -> Option<NameId>
    ensures { result ≡ output_of_read s.now }
{
    match s {
        Statement::Latch { q, .. } => Some(*q),
        _ => None,
    }
}

fn latch_inputs(alloc: Global, statements: &[Located]) -> Result<Vec<NameId>, AllocError>
    ensures { IfOk result (λ ids. ids.items ≡ filter_map (λ (s : ReadLocated). input_of_read s.what) statements.now) }
{
    statements
        .iter()
        .filter_map(|s| input_of(&s.what))
        .collect(alloc)
}

fn latch_outputs(alloc: Global, statements: &[Located]) -> Result<Vec<NameId>, AllocError>
    ensures { IfOk result (λ ids. ids.items ≡ filter_map (λ (s : ReadLocated). output_of_read s.what) statements.now) }
{
    statements
        .iter()
        .filter_map(|s| output_of(&s.what))
        .collect(alloc)
}

fn port_ids(alloc: Global, ports: &[Port]) -> Result<Vec<NameId>, AllocError>
    ensures { IfOk result (λ ids. ids.items ≡ map (λ (port : ReadPort). port.name) ports.now) }
{
    ports.iter().map(|port| port.name).collect(alloc)
}

// The bits of a latch with each net as its output.
fn latch_table(alloc: Global, m: &Model) -> Result<Vec<Kept>, AllocError>
    requires ids { HasIds m.now }
    requires few { length m.now.statements.items ≤ 2000000 }
    requires few_outputs { length m.now.outputs.items ≤ 2000000 }
    ensures { IfOk result (λ table. Keeps m.now.names table.items (latch_bits (model_of m.now))) }
{
    let nets = m.names.len() as usize;
    let latches = latch_outputs(alloc, &m.statements)?;
    let outputs = port_ids(alloc, &m.outputs)?;
    let table = named_table(alloc, nets, &latches, &outputs)?;
    Ok(table)
}

// The bits of each net by the latches that store it and the outputs that it is.
fn own_table(alloc: Global, m: &Model) -> Result<Vec<Kept>, AllocError>
    requires ids { HasIds m.now }
    requires few { length m.now.statements.items ≤ 2000000 }
    requires few_outputs { length m.now.outputs.items ≤ 2000000 }
    ensures { IfOk result (λ table. Keeps m.now.names table.items (bits_along (model_of m.now) [])) }
{
    let nets = m.names.len() as usize;
    let latches = latch_inputs(alloc, &m.statements)?;
    let outputs = port_ids(alloc, &m.outputs)?;
    let table = named_table(alloc, nets, &latches, &outputs)?;
    Ok(table)
}

// The bits of a `.names` with each net as its output.
fn gate_table(alloc: Global, m: &Model, outputs: &NetMarks) -> Result<Vec<Kept>, AllocError>
    requires ids { HasIds m.now }
    requires few { length m.now.statements.items ≤ 2000000 }
    requires few_outputs { length m.now.outputs.items ≤ 2000000 }
    requires outputs { Marks m.now.names outputs.now (output_nets (model_of m.now)) }
    ensures { IfOk result (λ table. Keeps m.now.names table.items (bits_along (model_of m.now) (gates_of (model_of m.now)))) }
{
    let mut table = own_table(alloc, m)?;
    pass_back(table.as_mut_slice(), outputs, &m.statements);
    Ok(table)
}

// Which nets are outputs.
fn output_marks(alloc: Global, m: &Model) -> Result<NetMarks, AllocError>
    requires { HasIds m.now }
    ensures { IfOk result (λ marks. Marks m.now.names marks (output_nets (model_of m.now))) }
{
    let mut outputs = NetMarks::new(alloc, &m.names)?;
    outputs.mark_ports(&m.outputs);
    Ok(outputs)
}

// Which nets cells drive.
fn cell_marks(alloc: Global, m: &Model) -> Result<NetMarks, AllocError>
    requires { HasIds m.now }
    ensures { IfOk result (λ marks. Marks m.now.names marks (cell_nets (model_of m.now))) }
{
    let mut cells = NetMarks::new(alloc, &m.names)?;
    cells.mark_cells(&m.statements);
    Ok(cells)
}

// The tables of a model.
pub(crate) fn known_of(alloc: Global, m: &Model) -> Result<Known, AllocError>
    requires ids { HasIds m.now }
    requires few { length m.now.statements.items ≤ 2000000 }
    requires few_outputs { length m.now.outputs.items ≤ 2000000 }
    ensures { IfOk result (λ known. IsKnown (model_of m.now) known) }
{
    let outputs = output_marks(alloc, m)?;
    let cells = cell_marks(alloc, m)?;
    let latches = latch_table(alloc, m)?;
    let gates = gate_table(alloc, m, &outputs)?;
    Ok(Known {
        gates,
        latches,
        outputs,
        cells,
    })
}
