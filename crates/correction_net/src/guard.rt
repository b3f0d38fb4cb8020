// The gates of a guard in correction.
ghost use Rattle.std.specs.Prelude.{ℕ, ◌*◌, ◌<◌, ◌≤◌, List, length, IfOk};
ghost use Rattle.netlist_spec.specs.GateRanges.{Region};
ghost use Rattle.guard_spec.specs.Codes.{IsDistance, correct, data_places};
ghost use Rattle.guard_spec.specs.Plain.{IsMachineSizeWith};
ghost use Rattle.guard_spec.specs.Words.{IsPartition};
ghost use Rattle.guard_names.specs.ToName.{guarded_of};
ghost use Rattle.correction_net.specs.Promised.{IsCorrectingGuard};

use crate::stand_in::{nets_below, stand_in};
use block_code::Code;
use containment::{guards_are_faithful, guards_correct};
use correction_laws::joined_copies_cost_no_more;
use encode_state::types::Layout;
use gate_net::{GateNet, Machine};
use guard_cells::{Sketch, rows_of_cells_join};
use guard_laws::built_guards_keep_their_bits;
use guard_made::costs_make_up_the_size;
use guard_names::GuardNets;
use guard_net::{add_latches, add_shown};
use std::alloc::{AllocError, Global};

/// A guard of a source's machine in correction: registers and outputs are codewords, and each of their bits is copied with
/// correctors of its own of the state words that it needs. There are no rails. Its plain size is at most 1,000,000, and so
/// is the number of the machine's gates.
pub fn build_correcting(
    alloc: Global,
    m: &Machine,
    l: &Layout,
    c: &Code,
    t: u8,
) -> Result<GuardNets, AllocError>
    requires state { IsPartition (length m.now.latches) (data_places c.now) l.now.state }
    requires output { IsPartition (length m.now.outputs) (data_places c.now) l.now.output }
    requires inputs { m.now.inputs ≤ 4096 }
    requires gates { length m.now.net.gates ≤ 1000000 }
    requires distance { (d : ℕ) × IsDistance c.now d × (2 * t < d) }
    requires size { (n : ℕ) × IsMachineSizeWith m.now c.now correct t 0 l.now n × (n ≤ 1000000) }
    ensures guard { IfOk result (λ g. (regions : List Region)
        × IsCorrectingGuard (guarded_of g m.now.inputs regions) m.now c.now t l.now) }
{
    costs_make_up_the_size();
    built_guards_keep_their_bits();
    guards_are_faithful();
    guards_correct();
    joined_copies_cost_no_more();
    rows_of_cells_join();
    let _columns = c.r();
    // So that it is known for a machine.
    let _inputs = m.inputs;
    let stand = stand_in(alloc, m, l, c, t)?;
    let count = stand.net.leaves();
    let leaves = nets_below(alloc, count)?;
    let net = GateNet::new(alloc, count)?;
    let cells = Vec::new(alloc);
    let mut s = Sketch { net, cells };
    let leaf = leaves.as_slice();
    let latches = add_latches(alloc, &stand, l, leaf, c, &mut s)?;
    let outputs = add_shown(alloc, m, &stand, l, leaf, c, &mut s)?;
    let Sketch { net, cells: _ } = s;
    // Each gate reads lower nets.
    let _nets = net.len();
    Ok(GuardNets {
        net,
        latches,
        outputs,
        rails: 0,
    })
}
