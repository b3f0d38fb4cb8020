// A machine with the names of its source.
ghost use Rattle.std.specs.Prelude.{◌≡◌, IfOk};
ghost use Rattle.blif_read.specs.Ids.{HasIds};
ghost use Rattle.blif_read.specs.View.{model_of};
ghost use Rattle.source_laws.specs.Numbered.{HasNamesOf};
ghost use Rattle.elaborate.specs.Named.{CanBeNamed};

use crate::names::{latch_ids, port_ids, unknown_inits};
use blif_read::Model;
use elaborated::Elaborated;
use gate_net::Machine;
use line_order::{data_inputs, first_clocking};
use std::alloc::{AllocError, Global};

// The machine with the names of its main model, which are moved.
pub(crate) fn named_source(
    alloc: Global,
    m: Model,
    machine: Machine,
) -> Result<Elaborated, AllocError>
    requires ids { HasIds m }
    requires can { CanBeNamed (model_of m) machine }
    ensures names { IfOk result (λ e. HasNamesOf (model_of m) e) }
    ensures machine { IfOk result (λ e. e.machine ≡ machine) }
{
    let input_ports = port_ids(alloc, &m.inputs)?;
    let clock_ports = port_ids(alloc, &m.clocks)?;
    let data_names = data_inputs(alloc, &m)?;
    let output_names = port_ids(alloc, &m.outputs)?;
    let latch_names = latch_ids(alloc, &m.statements)?;
    let clocking = first_clocking(&m);
    let unknown_inits = unknown_inits(&m.statements);
    Ok(Elaborated {
        machine,
        model: m.name,
        names: m.names,
        input_ports,
        clock_ports,
        data_names,
        output_names,
        latch_names,
        clocking,
        unknown_inits,
    })
}
