// The machine of a sound source.
ghost use Rattle.std.specs.Prelude.{ℕ, List, IfOk};
ghost use Rattle.netlist_spec.specs.FileRules.{IsFile};
ghost use Rattle.netlist_spec.specs.Netlist.{Model as SpecModel};
ghost use Rattle.netlist_spec.specs.Sound.{IsMain, IsSound};
ghost use Rattle.netlist_spec.specs.Elaborated.{IsMachineOf};
ghost use Rattle.source_laws.specs.Nets.{Nets};
ghost use Rattle.source_laws.specs.Numbered.{IsNumbered};
ghost use Rattle.source_nets.specs.Ports.{IsSource, source_file, source_library};
ghost use Rattle.source_check.specs.Checked.{IsChecked};

use crate::gates::push_gates;
use crate::leaves::number_leaves;
use crate::ports::{latch_rows, port_nets};
use gate_net::{GateNet, Machine};
use source_check::Checked;
use source_laws::numbered_sources_are_elaborated;
use source_nets::Source;
use std::alloc::{AllocError, Global};

/// The machine of the main model: a leaf for each data input and then for each latch, and the gates of the statements that
/// combine, with those of the models that they place in place of them.
pub fn machine_of(alloc: Global, source: &Source, checked: &Checked) -> Result<Machine, AllocError>
    requires source { IsSource source.now }
    requires is_file { IsFile (source_file source.now) }
    requires sound { IsSound (source_file source.now) (source_library source.now) }
    requires checked { IsChecked (source_file source.now) (source_library source.now) checked.now }
    ensures numbered { IfOk result (λ machine. (m : SpecModel) → IsMain (source_file source.now) m
        → (owners : List ℕ) × ((nets : Nets) × IsNumbered (source_file source.now) (source_library source.now) m machine owners nets)) }
    ensures machine { IfOk result (λ machine. (m : SpecModel) → IsMain (source_file source.now) m
        → IsMachineOf (source_file source.now) (source_library source.now) m machine) }
{
    numbered_sources_are_elaborated();
    let m = &source.file.models[0];
    let mut nets = vec![in alloc; 0u32; m.names.len() as usize]?;
    let table = nets.as_mut_slice();
    let leaves = number_leaves(alloc, m, table)?;
    let mut net = GateNet::new(alloc, leaves.inputs + leaves.latches)?;
    push_gates(alloc, source, checked, table, &mut net)?;
    let latches = latch_rows(alloc, table, m)?;
    let outputs = port_nets(alloc, table, &m.outputs)?;
    Ok(Machine {
        net,
        inputs: leaves.inputs,
        latches,
        outputs,
    })
}
