// The leaves of a machine: data inputs, and then latches.
ghost use Rattle.std.specs.Prelude.{◌≡◌, ◌+◌, ◌^◌, ◌<◌, length, filter_map, All, IfOk};
ghost use Rattle.blif_read.specs.Ids.{HasIds};
ghost use Rattle.blif_read.specs.View.{model_of};
ghost use Rattle.lowering.specs.Numbers.{IsWithin};
ghost use Rattle.source_machine.specs.Leaves.{CanNumber, HasLeaves};
ghost use Rattle.source_machine.specs.Rows.{numbered, shown_id};

use blif_read::{Located, Model, NameId, Statement};
use line_order::data_inputs;
use std::alloc::{AllocError, Global};

// How many leaves stand for data inputs, and how many for latches.
#[derive(Clone, Copy, Debug)]
pub(crate) struct Leaves {
    pub(crate) inputs: u32,
    pub(crate) latches: u32,
}

// Notes that the names are those of the next nets, from net `first` on.
fn number_nets(table: &mut [u32], first: u32, ids: &[NameId])
    requires within { All (IsWithin table.old) ids.now }
    requires room { first + length ids.now < 2 ^ 32 }
    ensures { table.new ≡ numbered table.old first ids.now }
{
    for (i, id) in ids.iter().enumerate() {
        table[id.0 as usize] = first + i as u32;
    }
}

// The outputs of the latches.
fn latch_ids(alloc: Global, statements: &[Located]) -> Result<Vec<NameId>, AllocError>
    ensures { IfOk result (λ ids. ids.items ≡ filter_map shown_id statements.now) }
{
    let mut ids = Vec::new(alloc);
    for located in statements {
        if let Statement::Latch { q, .. } = &located.what {
            ids.push(*q)?;
        }
    }
    Ok(ids)
}

// Notes the leaves of a model, by the numbers of its names.
pub(crate) fn number_leaves(
    alloc: Global,
    m: &Model,
    table: &mut [u32],
) -> Result<Leaves, AllocError>
    requires ids { HasIds m.now }
    requires can { CanNumber (model_of m.now) }
    requires table { length table.old ≡ length m.now.names }
    ensures { IfOk result (λ leaves. HasLeaves (model_of m.now) leaves.inputs (leaves.inputs + leaves.latches) table.new) }
{
    let data = data_inputs(alloc, m)?;
    let latches = latch_ids(alloc, &m.statements)?;
    let leaves = Leaves {
        inputs: data.len() as u32,
        latches: latches.len() as u32,
    };
    number_nets(table, 0, &data);
    number_nets(table, leaves.inputs, &latches);
    Ok(leaves)
}
