// The nets of a model's latches and outputs, by their numbers.
ghost use Rattle.std.specs.Prelude.{◌≡◌, map, All, IfOk};
ghost use Rattle.netlist_spec.specs.Models.{latch_outputs as latch_outputs_of, output_nets as output_nets_of};
ghost use Rattle.blif_read.specs.Ids.{HasIds, IsIdOf};
ghost use Rattle.blif_read.specs.View.{model_of, name_at};
ghost use Rattle.encode_state.specs.Nets.{shown_id};

use blif_read::{Model, Statement};
use imp_text::NameId;
use std::alloc::{AllocError, Global};

/// The nets that the latches of a model show, in the order of their lines.
pub fn latch_outputs(alloc: Global, m: &Model) -> Result<Vec<NameId>, AllocError>
    requires { HasIds m.now }
    ensures names { IfOk result (λ ids. map (name_at m.now.names) ids.items ≡ latch_outputs_of (model_of m.now)) }
    ensures within { IfOk result (λ ids. All (IsIdOf m.now.names) ids.items) }
{
    let mut ids = Vec::new(alloc);
    for s in &m.statements {
        if let Some(id) = shown(&s.what) {
            ids.push(id)?;
        }
    }
    Ok(ids)
}

// The net that a latch shows.
fn shown(s: &Statement) -> Option<NameId>
    ensures { result ≡ shown_id s.now }
{
    match s {
        Statement::Latch { q, .. } => Some(*q),
        _ => None,
    }
}

/// The output nets of a model, in their order.
pub fn output_nets(alloc: Global, m: &Model) -> Result<Vec<NameId>, AllocError>
    requires { HasIds m.now }
    ensures names { IfOk result (λ ids. map (name_at m.now.names) ids.items ≡ output_nets_of (model_of m.now)) }
    ensures within { IfOk result (λ ids. All (IsIdOf m.now.names) ids.items) }
{
    let mut ids = Vec::new(alloc);
    for port in &m.outputs {
        ids.push(port.name)?;
    }
    Ok(ids)
}
