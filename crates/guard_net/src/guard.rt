// The gates of a guard.
ghost use Rattle.std.specs.Prelude.{ℕ, ◌+◌, ◌≤◌, List, length, IfOk};
ghost use Rattle.netlist_spec.specs.GateRanges.{Region};
ghost use Rattle.guard_spec.specs.Codes.{data_places, detect};
ghost use Rattle.guard_spec.specs.Plain.{IsMachineSizeWith};
ghost use Rattle.guard_spec.specs.Words.{IsPartition};
ghost use Rattle.guard_names.specs.ToName.{guarded_of};
ghost use Rattle.guard_net.specs.Promised.{IsDetectingGuard};

use crate::leaves::leaf_nets;
use crate::parts::{add_alarms, add_latches, add_shown};
use block_code::Code;
use containment::{guards_are_faithful, guards_detect};
use encode_state::types::Layout;
use gate_net::{GateNet, Machine};
use guard_cells::{Sketch, rows_of_cells_join};
use guard_laws::built_guards_keep_their_bits;
use guard_made::{costs_make_up_the_size, made_machines_are_guards};
use guard_names::GuardNets;
use std::alloc::{AllocError, Global};

/// A guard of a source's machine in detection: registers and outputs are codewords, and t + 1 rails watch all words. The
/// plain size of such a guard has to be at most 1,000,000.
pub fn build(
    alloc: Global,
    m: &Machine,
    l: &Layout,
    c: &Code,
    t: u8,
) -> Result<GuardNets, AllocError>
    requires state { IsPartition (length m.now.latches) (data_places c.now) l.now.state }
    requires output { IsPartition (length m.now.outputs) (data_places c.now) l.now.output }
    requires inputs { m.now.inputs ≤ 4096 }
    requires bound { t ≤ 16 }
    requires size { (n : ℕ) × IsMachineSizeWith m.now c.now detect t (t + 1) l.now n × (n ≤ 1000000) }
    ensures guard { IfOk result (λ g. (regions : List Region)
        × IsDetectingGuard (guarded_of g m.now.inputs regions) m.now c.now t l.now) }
{
    made_machines_are_guards();
    built_guards_keep_their_bits();
    guards_are_faithful();
    guards_detect();
    costs_make_up_the_size();
    rows_of_cells_join();
    let _columns = c.r();
    let leaves = leaf_nets(alloc, m, l, c)?;
    let net = GateNet::new(alloc, leaves.count)?;
    let cells = Vec::new(alloc);
    let mut s = Sketch { net, cells };
    let leaf = leaves.nets.as_slice();
    let latches = add_latches(alloc, m, l, leaf, c, &mut s)?;
    let mut outputs = add_shown(alloc, m, m, l, leaf, c, &mut s)?;
    add_alarms(alloc, m, l, c, t + 1, &mut outputs, &mut s)?;
    let Sketch { net, cells: _ } = s;
    // Each gate reads lower nets.
    let _nets = net.len();
    let rails = u32::from(t) + 1;
    Ok(GuardNets {
        net,
        latches,
        outputs,
        rails,
    })
}
