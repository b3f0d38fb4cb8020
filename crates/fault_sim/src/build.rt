// Simulators of models.
ghost use Rattle.std.specs.Prelude.{◌≡◌, ◌≤◌, ◌++◌, filter_map, length, map, option_to_list, All, IfOk, IfSome, IsTrue, OnOk};
ghost use Rattle.netlist_spec.specs.Models.{init_bit as init_bit_of};
ghost use Rattle.netlist_spec.specs.Netlist.{are_distinct};
ghost use Rattle.netlist_spec.specs.Ordered.{cell_nets as cell_nets_of};
ghost use Rattle.netlist_spec.specs.Reads.{IsWithinModelLimits};
ghost use Rattle.blif_read.specs.declared.file.Located.{Located as ReadLocated};
ghost use Rattle.blif_read.specs.declared.file.Port.{Port as ReadPort};
ghost use Rattle.blif_read.specs.Ids.{HasIds};
ghost use Rattle.blif_read.specs.View.{model_of};
ghost use Rattle.fault_sim.specs.declared.row.LatchCell.{LatchCell as Latch};
ghost use Rattle.fault_sim.specs.Build.{cell_of as cell_of_read, gate_of, latch_of as latch_of_read};
ghost use Rattle.fault_sim.specs.Gates.{AreGates, numbered};
ghost use Rattle.fault_sim.specs.Simulated.{HasModel};

use crate::Sim;
use crate::cells::cells_by_net;
use crate::gates::Gates;
use crate::row::LatchCell;
use blif_read::{Located, Model, NameId, Names, Port, Statement};
use line_order::data_inputs;
use std::alloc::{AllocError, Global};

// The same names with the same numbers.
fn copy_names(alloc: Global, names: &Names) -> Result<Names, AllocError>
    ensures { IfOk result (λ copy. copy ≡ names.now) }
{
    let mut copy = Names::new(alloc);
    for i in 0..names.len() {
        copy.intern(names.get(NameId(i)))?;
    }
    Ok(copy)
}

fn port_ids(alloc: Global, ports: &[Port]) -> Result<Vec<NameId>, AllocError>
    ensures { IfOk result (λ ids. ids.items ≡ map (λ (port : ReadPort). port.name) ports.now) }
{
    ports.iter().map(|port| port.name).collect(alloc)
}

fn init_bit(init: Option<u8>) -> bool
    ensures { result ≡ init_bit_of init }
{
    match init {
        None => false,
        Some(n) => n == 1,
    }
}

fn latch_of(s: &Statement) -> Option<LatchCell>
    ensures { result ≡ latch_of_read s.now }
{
    match s {
        Statement::Latch { d, q, init, .. } => Some(LatchCell {
            q: *q,
            d: *d,
            init: init_bit(*init),
        }),
        _ => None,
    }
}

fn latch_cells(alloc: Global, statements: &[Located]) -> Result<Vec<LatchCell>, AllocError>
    ensures { IfOk result (λ latches. latches.items ≡ filter_map (λ (s : ReadLocated). latch_of_read s.what) statements.now) }
{
    statements
        .iter()
        .filter_map(|s| latch_of(&s.what))
        .collect(alloc)
}

fn cell_of(s: &Statement) -> Option<NameId>
    ensures { result ≡ cell_of_read s.now }
{
    match s {
        Statement::Names { out, .. } => Some(*out),
        Statement::Latch { q, .. } => Some(*q),
        Statement::Subckt { .. } => None,
    }
}

fn cell_nets(alloc: Global, statements: &[Located]) -> Result<Vec<NameId>, AllocError>
    ensures { IfOk result (λ cells. cells.items ≡ filter_map (λ (s : ReadLocated). cell_of_read s.what) statements.now) }
{
    statements
        .iter()
        .filter_map(|s| cell_of(&s.what))
        .collect(alloc)
}

// Appends the gate of a `.names`.
fn push_gate(alloc: Global, gates: &mut Gates, s: &Statement) -> Result<(), AllocError>
    requires few { IfSome (gate_of s.now) (λ g. length g.ins ≤ 16) }
    requires are_gates { AreGates gates.old }
    ensures gates { OnOk result (numbered gates.new ≡ numbered gates.old ++ option_to_list (gate_of s.now)) }
    ensures are_gates { OnOk result (AreGates gates.new) }
{
    match s {
        Statement::Names { ins, out, cover } => gates.push(alloc, ins, *out, cover),
        _ => Ok(()),
    }
}

fn gate_cells(alloc: Global, statements: &[Located]) -> Result<Gates, AllocError>
    requires { All (λ (s : ReadLocated). IfSome (gate_of s.what) (λ g. length g.ins ≤ 16)) statements.now }
    ensures gates { IfOk result (λ gates. numbered gates ≡ filter_map (λ (s : ReadLocated). gate_of s.what) statements.now) }
    ensures are_gates { IfOk result AreGates }
{
    let mut gates = Gates::new(alloc);
    for s in statements {
        push_gate(alloc, &mut gates, &s.what)?;
    }
    Ok(gates)
}

fn init_bits(alloc: Global, latches: &[LatchCell]) -> Result<Vec<bool>, AllocError>
    ensures { IfOk result (λ bits. bits.items ≡ map (λ (l : Latch). l.init) latches.now) }
{
    latches.iter().map(|latch| latch.init).collect(alloc)
}

// The simulator of a model, whose latches have their inits.
pub(crate) fn build(alloc: Global, m: &Model) -> Result<Sim, AllocError>
    requires ids { HasIds m.now }
    requires limits { IsWithinModelLimits (model_of m.now) }
    requires few { length m.now.statements.items ≤ 2000000 }
    requires apart { IsTrue (are_distinct (cell_nets_of (model_of m.now))) }
    ensures model { IfOk result (λ sim. HasModel (model_of m.now) sim) }
    ensures starts { IfOk result (λ sim. sim.stored ≡ sim.inits) }
{
    let names = copy_names(alloc, &m.names)?;
    let nets = m.names.len() as usize;
    let inputs = data_inputs(alloc, m)?;
    let latches = latch_cells(alloc, &m.statements)?;
    let gates = gate_cells(alloc, &m.statements)?;
    let outputs = port_ids(alloc, &m.outputs)?;
    let cells = cell_nets(alloc, &m.statements)?;
    let by_net = cells_by_net(alloc, &m.names, &cells)?;
    let stored = init_bits(alloc, &latches)?;
    let row = vec![in alloc; false; nets]?;
    let forced = vec![in alloc; None; nets]?;
    Ok(Sim {
        names,
        inputs,
        latches,
        gates,
        outputs,
        cells,
        by_net,
        stored,
        row,
        forced,
    })
}
