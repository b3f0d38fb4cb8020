// What is told of the cells of a netlist.
ghost use Rattle.std.specs.Prelude.{◌≡◌, ◌<◌, ◌≤◌, ◌&&◌, List, [], ◌∷◌, find, length, map, option_map, All, IfErr, IfOk, IfSome, OnOk};
ghost use Rattle.netlist_spec.specs.CellBits.{IsCell, cells_of};
ghost use Rattle.netlist_spec.specs.FileRules.{IsFile};
ghost use Rattle.netlist_spec.specs.Models.{gates_of, main_model};
ghost use Rattle.netlist_spec.specs.Netlist.{Cover, Name as Bytes, names, stands_in};
ghost use Rattle.netlist_spec.specs.Ordered.{IsOrdered, order_fault};
ghost use Rattle.netlist_spec.specs.Reads.{IsWithinModelLimits};
ghost use Rattle.gate_net.specs.Bit.{bit_of};
ghost use Rattle.imp_text.specs.declared.names.NameId.{NameId as Id};
ghost use Rattle.blif_read.specs.Ids.{HasIds, ids_in};
ghost use Rattle.blif_read.specs.View.{file_of, model_of, name_at, statement_of};
ghost use Rattle.line_order.specs.Faults.{IsFault, fault_of};
ghost use Rattle.line_order.specs.Marks.{Marks};
ghost use Rattle.audit_laws.specs.Along.{AreInOrder, bits_along};
ghost use Rattle.audit_laws.specs.FirstBits.{one_bit};
ghost use Rattle.audit_laws.specs.OnePass.{IsNoSubckt, finding_of, finding_of_bits, finding_of_read, is_rail as is_rail_of};
ghost use Rattle.independence_audit.specs.Audited.{IsAudit, cell_name};
ghost use Rattle.independence_audit.specs.Kept.{first_bits};
ghost use Rattle.independence_audit.specs.Known.{HasTables, IsKnown, bits_kept};
ghost use Rattle.independence_audit.specs.Told.{IsToldOf, finding_told};

use crate::AuditFault;
use crate::kept::Kept;
use crate::known::{Known, known_of};
use crate::types::{Audit, CellId};
use blif_read::{File, Model, NameId, Statement};
use gate_net::Bit;
use line_order::check_order;
use std::alloc::{AllocError, Global};

// How the name of a rail begins.
const RAIL: &[u8] = b"guard:alarm";

// What is told of a cell.
#[derive(Debug, Drop)]
pub(crate) enum Told {
    Serves(Bit),
    Finds(Audit),
}

// Whether a bit is a rail.
fn is_rail(m: &Model, bit: Bit) -> bool
    requires { HasIds m.now }
    ensures { result ≡ is_rail_of (model_of m.now) (bit_of bit) }
{
    match bit {
        Bit::Latch(_) => false,
        Bit::Output(i) => match m.outputs.get(i as usize) {
            Some(port) => m.names.get(port.name).starts_with(RAIL),
            None => false,
        },
    }
}

// The first output that a cell drives among the nets that a `.names` reads.
fn first_read(known: &Known, ins: &[NameId]) -> Option<NameId>
    requires outputs { All (λ (id : Id). id.0 < length known.now.outputs) ins.now }
    requires cells { All (λ (id : Id). id.0 < length known.now.cells) ins.now }
    ensures { (all outputs cells : List Bytes) → Marks all known.now.outputs outputs → Marks all known.now.cells cells
        → option_map (name_at all) result ≡ find (λ n. stands_in n outputs && stands_in n cells) (map (name_at all) ins.now) }
{
    for id in ins {
        let output = known.outputs.has(*id);
        let driven = known.cells.has(*id);
        if output & driven {
            return Some(*id);
        }
    }
    None
}

// What is told of a cell by its bits, and by the first driven output that it reads.
fn tell_bits(m: &Model, cell: CellId, read: Option<NameId>, bits: Kept) -> Told
    requires { HasIds m.now }
    ensures finding { finding_told (model_of m.now) result ≡ finding_of_bits (model_of m.now) (cell_name (model_of m.now) cell) (option_map (name_at m.now.names) read) (first_bits bits) }
    ensures bit { IsToldOf result (first_bits bits) }
{
    match bits {
        Kept::NoBit => Told::Finds(Audit::Unused { cell }),
        Kept::OneBit(bit) => tell_read(m, cell, read, bit),
        Kept::TwoBits(one, other) => Told::Finds(Audit::Shared { cell, one, other }),
    }
}

// What is told of a cell that has this one bit.
fn tell_read(m: &Model, cell: CellId, read: Option<NameId>, bit: Bit) -> Told
    requires { HasIds m.now }
    ensures finding { finding_told (model_of m.now) result ≡ finding_of_read (cell_name (model_of m.now) cell) (is_rail_of (model_of m.now) (bit_of bit)) (option_map (name_at m.now.names) read) }
    ensures bit { IsToldOf result (one_bit (bit_of bit)) }
{
    match read {
        None => Told::Serves(bit),
        Some(net) => {
            if is_rail(m, bit) {
                Told::Serves(bit)
            } else {
                Told::Finds(Audit::OutputRead { net, cell })
            }
        }
    }
}

// What is told of a `.names`.
fn tell_gate(m: &Model, known: &Known, cell: CellId, ins: &[NameId], out: NameId) -> Told
    requires ids { HasIds m.now }
    requires tables { HasTables (length m.now.names) known.now }
    requires ins { All (λ (id : Id). id.0 < length m.now.names) ins.now }
    requires out { out.0 < length m.now.names }
    ensures finding { (cover : Cover) → IsKnown (model_of m.now) known.now → cell_name (model_of m.now) cell ≡ name_at m.now.names out
        → finding_told (model_of m.now) result ≡ finding_of (model_of m.now) (names (map (name_at m.now.names) ins.now) (name_at m.now.names out) cover) (bits_along (model_of m.now) (gates_of (model_of m.now)) (name_at m.now.names out)) }
    ensures bit { IsKnown (model_of m.now) known.now → IsToldOf result (bits_along (model_of m.now) (gates_of (model_of m.now)) (name_at m.now.names out)) }
{
    if ins.len() > 2 {
        return Told::Finds(Audit::Wide { cell });
    }
    let read = first_read(known, ins);
    tell_bits(m, cell, read, known.gates[out.0 as usize])
}

// What is told of a cell. A `.subckt` is none.
fn tell_cell(m: &Model, known: &Known, cell: CellId, s: &Statement) -> Told
    requires ids { HasIds m.now }
    requires tables { HasTables (length m.now.names) known.now }
    requires within { All (λ (id : Id). id.0 < length m.now.names) (ids_in s.now) }
    requires is_cell { IsNoSubckt (statement_of m.now.names s.now) }
    ensures finding { IsKnown (model_of m.now) known.now → IsCell (statement_of m.now.names s.now) (cell_name (model_of m.now) cell)
        → finding_told (model_of m.now) result ≡ finding_of (model_of m.now) (statement_of m.now.names s.now) (bits_kept (model_of m.now) (statement_of m.now.names s.now)) }
    ensures bit { IsKnown (model_of m.now) known.now → IsToldOf result (bits_kept (model_of m.now) (statement_of m.now.names s.now)) }
{
    match s {
        Statement::Names { ins, out, .. } => tell_gate(m, known, cell, ins, *out),
        Statement::Latch { q, .. } => tell_bits(m, cell, None, known.latches[q.0 as usize]),
        Statement::Subckt { .. } => Told::Finds(Audit::Unused { cell }),
    }
}

// What is told of all cells, as far as the first finding.
fn tell_cells(alloc: Global, m: &Model, known: &Known) -> Result<Audit, AllocError>
    requires ids { HasIds m.now }
    requires few { length m.now.statements.items ≤ 2000000 }
    requires tables { HasTables (length m.now.names) known.now }
    requires cells { All IsNoSubckt (cells_of (model_of m.now)) }
    ensures { IfOk result (λ audit. IsKnown (model_of m.now) known.now → AreInOrder (gates_of (model_of m.now)) → IsAudit (record { models = model_of m.now ∷ [] }) (model_of m.now) audit) }
{
    let mut bits = Vec::new(alloc);
    for (i, s) in m.statements.iter().enumerate() {
        match tell_cell(m, known, CellId(i as u32), &s.what) {
            Told::Serves(bit) => bits.push(bit)?,
            Told::Finds(audit) => return Ok(audit),
        }
    }
    Ok(Audit::Independent(bits))
}

// The audit of a model whose cells stand in order.
fn audit_model(alloc: Global, m: &Model) -> Result<Audit, AllocError>
    requires ids { HasIds m.now }
    requires few { length m.now.statements.items ≤ 2000000 }
    requires limits { IsWithinModelLimits (model_of m.now) }
    requires cells { All IsNoSubckt (cells_of (model_of m.now)) }
    ensures { IfOk result (λ audit. AreInOrder (gates_of (model_of m.now)) → IsAudit (record { models = model_of m.now ∷ [] }) (model_of m.now) audit) }
{
    let known = known_of(alloc, m)?;
    let audit = tell_cells(alloc, m, &known)?;
    Ok(audit)
}

/// Tests whether each cell of a netlist serves one bit, a latch or an output: each `.names` has at most two inputs, each cell
/// has exactly one bit, and none but those of rails reads an output that a cell drives. The bit of each cell is answered, or the
/// finding of the first cell in file order that has one, of the first kind in the order of `Audit`.
///
/// # Errors
/// The first line at fault, where the netlist is not in order.
pub fn audit(alloc: Global, f: &File) -> Result<Audit, AuditFault>
    requires ids { All HasIds f.now.models.items }
    requires is_file { IsFile (file_of f.now) }
    ensures ordered { OnOk result (IsOrdered (file_of f.now)) }
    ensures audit { IfOk result (λ audit. IfSome (main_model (file_of f.now)) (λ m. IsAudit (file_of f.now) m audit)) }
    ensures fault { IfErr result (λ fault. IsFault (order_fault (file_of f.now)) (fault_of fault)) }
{
    check_order(alloc, f)?;
    Ok(audit_model(alloc, &f.models[0])?)
}
