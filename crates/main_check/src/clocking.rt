// How the latches of a model are clocked, and which clock nets are read.
ghost use Rattle.std.specs.Prelude.{◌≡◌, ◌<◌, ◌++◌, ◌&&◌, List, length, find, filter, map, option_map, All, IfOk, IfSome};
ghost use Rattle.netlist_spec.specs.Covers.{Library};
ghost use Rattle.netlist_spec.specs.Models.{clock_nets, first_clocking as first_clocking_of, is_declared as is_declared_in, latches_of, same_clocking as same_clocking_of};
ghost use Rattle.netlist_spec.specs.Netlist.{File, Model as SpecModel, Name as Bytes, stands_in};
ghost use Rattle.netlist_spec.specs.Placed.{port_names};
ghost use Rattle.netlist_spec.specs.Sound.{read_nets};
ghost use Rattle.netlist_spec.specs.SoundFaults.{clocking_in};
ghost use Rattle.imp_text.specs.declared.names.NameId.{NameId as Id};
ghost use Rattle.blif_read.specs.declared.file.Port.{Port as ReadPort};
ghost use Rattle.blif_read.specs.Ids.{HasIds, IsIdOf, control_ids, ids_in};
ghost use Rattle.blif_read.specs.View.{clocking_of, model_of, name_at, statement_of};
ghost use Rattle.line_order.specs.Marks.{Marks};
ghost use Rattle.main_check.specs.Clocking.{IsClockedBy, odd_among, odd_output as odd_output_of, read_clock_of};

use blif_read::{Clocking, Model, NameId, Port, Statement};
use line_order::{
    NetMarks, clock_marks, declared_marks, first_clocking, is_declared, same_clocking,
};
use std::alloc::{AllocError, Global};

/// The output of the first latch that is clocked otherwise than the first latch, or by a control that is neither `NIL` nor
/// declared. Where there is none, the first clock net that is read, those of `.inputs` before those of `.clock`. `read` has
/// a mark for each net that is read.
pub fn clocking_fault(
    alloc: Global,
    m: &Model,
    read: &NetMarks,
) -> Result<Option<NameId>, AllocError>
    requires ids { HasIds m.now }
    requires size { length read.now ≡ length m.now.names }
    ensures exact { IfOk result (λ found. (file : File) (library : Library) → Marks m.now.names read.now (read_nets file library (model_of m.now))
        → option_map (name_at m.now.names) found ≡ clocking_in file library (model_of m.now)) }
    ensures within { IfOk result (λ found. IfSome found (IsIdOf m.now.names)) }
{
    let declared = declared_marks(alloc, m)?;
    let clocks = clock_marks(alloc, m)?;
    if let Some(id) = odd_latch(m, &declared) {
        return Ok(Some(id));
    }
    let found = read_clock(m, &clocks, read);
    Ok(found)
}

// The output of the first latch at fault. `declared` has the marks of inputs and clocks.
fn odd_latch(m: &Model, declared: &NetMarks) -> Option<NameId>
    requires ids { HasIds m.now }
    requires declared { Marks m.now.names declared.now (port_names (model_of m.now).inputs ++ port_names (model_of m.now).clocks) }
    ensures name { option_map (name_at m.now.names) result ≡ odd_among (model_of m.now) (model_of m.now).statements }
    ensures within { IfSome result (IsIdOf m.now.names) }
{
    let first = first_clocking(m);
    for s in &m.statements {
        if let Some(id) = odd_output(&s.what, first, declared) {
            return Some(id);
        }
    }
    None
}

// The output of a latch at fault.
fn odd_output(s: &Statement, first: Clocking, declared: &NetMarks) -> Option<NameId>
    requires { All (λ (id : Id). id.0 < length declared.now) (ids_in s.now) }
    ensures name { (m : SpecModel) → IsClockedBy m first declared.now → option_map (name_at m.names) result ≡ odd_output_of m (statement_of m.names s.now) }
    ensures within { IfSome result (λ id. id.0 < length declared.now) }
{
    if let Statement::Latch { q, clocking, .. } = s {
        if !is_clocked(*clocking, first, declared) {
            return Some(*q);
        }
    }
    None
}

// Whether a latch is clocked as the first one, by a control that is `NIL` or declared.
fn is_clocked(clocking: Clocking, first: Clocking, declared: &NetMarks) -> bool
    requires { All (λ (id : Id). id.0 < length declared.now) (control_ids clocking) }
    ensures { (m : SpecModel) → IsClockedBy m first declared.now
        → result ≡ (same_clocking_of (clocking_of m.names clocking) (first_clocking_of (latches_of m)) && is_declared_in m (clocking_of m.names clocking)) }
{
    let alike = same_clocking(clocking, first);
    let has_control = is_declared(declared, clocking);
    alike & has_control
}

// The first clock net that is read.
fn read_clock(m: &Model, clocks: &NetMarks, read: &NetMarks) -> Option<NameId>
    requires ids { HasIds m.now }
    requires clocks { Marks m.now.names clocks.now (clock_nets (model_of m.now)) }
    requires size { length read.now ≡ length m.now.names }
    ensures name { (nets : List Bytes) → Marks m.now.names read.now nets
        → option_map (name_at m.now.names) result ≡ read_clock_of (model_of m.now) nets }
    ensures within { IfSome result (IsIdOf m.now.names) }
{
    if let Some(id) = first_read(&m.inputs, clocks, read) {
        return Some(id);
    }
    first_read(&m.clocks, clocks, read)
}

// The first port that is a clock net and is read.
fn first_read(ports: &[Port], clocks: &NetMarks, read: &NetMarks) -> Option<NameId>
    requires ports { All (λ (port : ReadPort). port.name.0 < length clocks.now) ports.now }
    requires size { length read.now ≡ length clocks.now }
    ensures name { (all nets reads : List Bytes) → Marks all clocks.now nets → Marks all read.now reads
        → option_map (name_at all) result ≡ find (λ n. stands_in n reads) (filter (λ n. stands_in n nets) (map (λ (port : ReadPort). name_at all port.name) ports.now)) }
    ensures within { IfSome result (λ id. id.0 < length clocks.now) }
{
    for port in ports {
        let is_clock = clocks.has(port.name);
        let is_read = read.has(port.name);
        if is_clock & is_read {
            return Some(port.name);
        }
    }
    None
}
