// The gates of the main model.
ghost use Rattle.std.specs.Prelude.{◌≡◌, ℕ, [], OnOk};
ghost use Rattle.netlist_spec.specs.Netlist.{Model as SpecModel};
ghost use Rattle.netlist_spec.specs.Sound.{IsMain};
ghost use Rattle.source_nets.specs.Ports.{source_file, source_library};
ghost use Rattle.model_lowering.specs.Inside.{IsReady};
ghost use Rattle.source_machine.specs.Leaves.{HasLeaves};
ghost use Rattle.source_machine.specs.Gates.{HasGates};

use gate_net::GateNet;
use model_lowering::lower_statement;
use source_check::Checked;
use source_nets::Source;
use std::alloc::{AllocError, Global};

// The most steps in a chain of `.subckt` from the main model.
const MOST_STEPS: u32 = 16;

// Appends gates for the statements of the main model that combine, in the order in which their nets settle.
pub(crate) fn push_gates(
    alloc: Global,
    source: &Source,
    checked: &Checked,
    table: &mut [u32],
    net: &mut GateNet,
) -> Result<(), AllocError>
    requires ready { IsReady source.now checked.now }
    requires leaves { (m : SpecModel) → IsMain (source_file source.now) m → (inputs : ℕ) × HasLeaves m inputs net.old.leaves table.old }
    requires none { net.old.gates ≡ [] }
    ensures { OnOk result ((m : SpecModel) → IsMain (source_file source.now) m → HasGates (source_file source.now) (source_library source.now) m net.new table.new) }
{
    let order = &checked.orders[0];
    for i in order {
        lower_statement(alloc, source, checked, 0, *i, MOST_STEPS, table, net)?;
    }
    Ok(())
}
