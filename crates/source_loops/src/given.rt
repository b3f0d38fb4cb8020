// The nets that have their bits when a cycle begins.
ghost use Rattle.std.specs.Prelude.{◌<◌, ◌++◌, ◌≡◌, List, length, All, IfOk};
ghost use Rattle.std.specs.List.{flat_map};
ghost use Rattle.netlist_spec.specs.Netlist.{Name as Bytes};
ghost use Rattle.imp_text.specs.declared.names.NameId.{NameId as Id};
ghost use Rattle.blif_read.specs.declared.file.Located.{Located as ReadLocated};
ghost use Rattle.blif_read.specs.Ids.{HasIds, ids_in};
ghost use Rattle.blif_read.specs.View.{model_of, statement_of};
ghost use Rattle.line_order.specs.Marks.{Marks, latch_output_of};
ghost use Rattle.source_laws.specs.Settling.{given_nets};

use blif_read::{Located, Model, Statement};
use imp_text::{NameId, Names};
use line_order::{NetMarks, declared_marks};
use std::alloc::{AllocError, Global};

// Marks what a latch drives.
fn mark_latch(s: &Statement, marks: &mut NetMarks)
    requires { All (λ (id : Id). id.0 < length marks.old) (ids_in s.now) }
    ensures size { length marks.new ≡ length marks.old }
    ensures marked { (all listed : List Bytes) → Marks all marks.old listed → Marks all marks.new (listed ++ latch_output_of (statement_of all s.now)) }
{
    if let Statement::Latch { q, .. } = s {
        marks.mark(*q);
    }
}

// Marks what the latches drive.
fn mark_latches(statements: &[Located], marks: &mut NetMarks)
    requires { All (λ (s : ReadLocated). All (λ (id : Id). id.0 < length marks.old) (ids_in s.what)) statements.now }
    ensures size { length marks.new ≡ length marks.old }
    ensures marked { (all listed : List Bytes) → Marks all marks.old listed
        → Marks all marks.new (listed ++ flat_map (λ (s : ReadLocated). latch_output_of (statement_of all s.what)) statements.now) }
{
    for s in statements {
        mark_latch(&s.what, marks);
    }
}

// The marks of all names.
fn flags_of(alloc: Global, names: &Names, marks: &NetMarks) -> Result<Vec<bool>, AllocError>
    requires { length marks.now ≡ length names.now }
    ensures { IfOk result (λ flags. (listed : List Bytes) → Marks names.now marks.now listed → Marks names.now flags.items listed) }
{
    let mut flags = Vec::new(alloc);
    for k in 0..names.len() {
        flags.push(marks.has(NameId(k)))?;
    }
    Ok(flags)
}

// A mark for each net, at the inputs, clocks and latch outputs.
pub(crate) fn given_marks(alloc: Global, m: &Model) -> Result<Vec<bool>, AllocError>
    requires { HasIds m.now }
    ensures { IfOk result (λ given. Marks m.now.names given.items (given_nets (model_of m.now))) }
{
    let mut marks = declared_marks(alloc, m)?;
    mark_latches(&m.statements, &mut marks);
    flags_of(alloc, &m.names, &marks)
}
