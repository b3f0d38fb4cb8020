// The nets that a statement reads and drives.
ghost use Rattle.std.specs.Prelude.{◌≡◌, ◌++◌, ◌∷◌, [], IfOk, OnOk, if◌then◌else◌};
ghost use Rattle.source_nets.specs.Ports.{IsSource, actual_ids, net_ids, ports_of, source_file, source_library};
ghost use Rattle.source_nets.specs.Survey.{IsMeaningIn, placed_at};

use crate::ports::is_port;
use crate::{Meaning, NetRows, PortKind, Source};
use blif_read::{Bind, Statement};
use imp_text::NameId;
use std::alloc::{AllocError, Global};

// Appends a number where the test says so.
fn push_if(ids: &mut Vec<NameId>, test: bool, id: NameId) -> Result<(), AllocError>
    ensures { OnOk result (ids.new.items ≡ ids.old.items ++ (if test then id ∷ [] else [])) }
{
    if test {
        ids.push(id)?;
    }
    Ok(())
}

// The nets that stand for ports of a kind, as the words of the `.subckt` stand.
fn actuals(
    alloc: Global,
    source: &Source,
    kind: PortKind,
    meaning: Meaning,
    binds: &[Bind],
) -> Result<Vec<NameId>, AllocError>
    requires source { IsSource source.now }
    requires meaning { IsMeaningIn (source_file source.now) (source_library source.now) meaning }
    ensures { IfOk result (λ ids. ids.items ≡ actual_ids (ports_of kind (placed_at (source_file source.now) (source_library source.now) meaning)) binds.now) }
{
    let mut ids = Vec::new(alloc);
    for bind in binds {
        let is_one = is_port(source, kind, meaning, bind.formal.bytes());
        push_if(&mut ids, is_one, bind.actual)?;
    }
    Ok(ids)
}

/// Appends the list of the nets that a statement reads, or of those that it drives.
pub(crate) fn push_nets(
    alloc: Global,
    source: &Source,
    kind: PortKind,
    meaning: Meaning,
    s: &Statement,
    rows: &mut NetRows,
) -> Result<(), AllocError>
    requires source { IsSource source.now }
    requires meaning { IsMeaningIn (source_file source.now) (source_library source.now) meaning }
    ensures { OnOk result (rows.new ≡ rows.old ++ net_ids (source_file source.now) (source_library source.now) kind meaning s.now ∷ []) }
{
    match s {
        Statement::Names { ins, out, .. } => match kind {
            PortKind::Input => rows.push(ins),
            PortKind::Output => rows.push(&[*out]),
        },
        Statement::Latch { d, q, .. } => match kind {
            PortKind::Input => rows.push(&[*d]),
            PortKind::Output => rows.push(&[*q]),
        },
        Statement::Subckt { binds, .. } => {
            let ids = actuals(alloc, source, kind, meaning, binds)?;
            rows.push(&ids)
        }
    }
}
