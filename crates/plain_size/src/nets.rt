// The nets of latches.
ghost use Rattle.std.specs.Prelude.{◌≡◌, map, All, IfOk};
ghost use Rattle.netlist_spec.specs.Models.{latch_inputs as latch_inputs_of};
ghost use Rattle.blif_read.specs.Ids.{HasIds, IsIdOf};
ghost use Rattle.blif_read.specs.View.{model_of, name_at};
ghost use Rattle.plain_size.specs.Nets.{stored_id};

use blif_read::{Model, NameId, Statement};
use std::alloc::{AllocError, Global};

/// The nets that the latches of a model store, in the order of their lines.
pub(crate) fn latch_inputs(alloc: Global, m: &Model) -> Result<Vec<NameId>, AllocError>
    requires { HasIds m.now }
    ensures names { IfOk result (λ ids. map (name_at m.now.names) ids.items ≡ latch_inputs_of (model_of m.now)) }
    ensures within { IfOk result (λ ids. All (IsIdOf m.now.names) ids.items) }
{
    let mut ids = Vec::new(alloc);
    for s in &m.statements {
        if let Some(id) = stored(&s.what) {
            ids.push(id)?;
        }
    }
    Ok(ids)
}

// The net that a latch stores.
fn stored(s: &Statement) -> Option<NameId>
    ensures { result ≡ stored_id s.now }
{
    match s {
        Statement::Latch { d, .. } => Some(*d),
        _ => None,
    }
}
