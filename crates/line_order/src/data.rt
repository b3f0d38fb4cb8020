// The data inputs of a model.
ghost use Rattle.std.specs.Prelude.{◌≡◌, ◌≤◌, [], ◌∷◌, ◌++◌, length, map, All, IfOk, OnOk, if◌then◌else◌};
ghost use Rattle.netlist_spec.specs.Models.{data_inputs as data_inputs_of};
ghost use Rattle.blif_read.specs.Ids.{HasIds, IsIdOf};
ghost use Rattle.blif_read.specs.View.{model_of, name_at};

use crate::tables::clock_marks;
use blif_read::{Model, NameId};
use std::alloc::{AllocError, Global};

/// The data inputs of a model: the names of `.inputs`, in order, without the clock nets.
pub fn data_inputs(alloc: Global, m: &Model) -> Result<Vec<NameId>, AllocError>
    requires { HasIds m.now }
    ensures names { IfOk result (λ ids. map (name_at m.now.names) ids.items ≡ data_inputs_of (model_of m.now)) }
    ensures within { IfOk result (λ ids. All (IsIdOf m.now.names) ids.items) }
    ensures few { IfOk result (λ ids. length ids.items ≤ length m.now.inputs.items) }
{
    let clocks = clock_marks(alloc, m)?;
    let mut ids = Vec::new(alloc);
    for port in &m.inputs {
        let is_clock = clocks.has(port.name);
        push_if(&mut ids, !is_clock, port.name)?;
    }
    Ok(ids)
}

// Appends a number where the test says so.
fn push_if(ids: &mut Vec<NameId>, test: bool, id: NameId) -> Result<(), AllocError>
    ensures { OnOk result (ids.new.items ≡ ids.old.items ++ (if test then id ∷ [] else [])) }
{
    if test {
        ids.push(id)?;
    }
    Ok(())
}
