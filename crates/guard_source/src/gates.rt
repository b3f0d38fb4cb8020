// The gates of a guard, in either mode.
ghost use Rattle.std.specs.Prelude.{◌≡◌, ℕ, ◌≤◌, List, length, IfOk};
ghost use Rattle.netlist_spec.specs.GateRanges.{Region};
ghost use Rattle.guard_spec.specs.Codes.{IsDistance, data_places, needed_distance, rail_count};
ghost use Rattle.guard_spec.specs.Plain.{IsMachineSizeWith};
ghost use Rattle.guard_spec.specs.Words.{IsPartition};
ghost use Rattle.guard_laws.specs.Promised.{IsGuardOf};
ghost use Rattle.guard_names.specs.ToName.{guarded_of};

use correction_net::build_correcting;
use encode_state::types::Layout;
use gate_net::Machine;
use guard_names::GuardNets;
use guard_net::build;
use settings::{Mode, Settings};
use std::alloc::{AllocError, Global};

/// A guard of a source's machine, in the mode of the settings and for their code and bound. Its plain size is at most
/// 1,000,000.
pub(crate) fn build_for(
    alloc: Global,
    m: &Machine,
    l: &Layout,
    s: &Settings,
) -> Result<GuardNets, AllocError>
    requires state { IsPartition (length m.now.latches) (data_places s.now.code) l.now.state }
    requires output { IsPartition (length m.now.outputs) (data_places s.now.code) l.now.output }
    requires inputs { m.now.inputs ≤ 4096 }
    requires gates { length m.now.net.gates ≤ 1000000 }
    requires strong { (d : ℕ) × IsDistance s.now.code d × (needed_distance s.now.mode s.now.bound ≤ d) }
    requires size { (n : ℕ) × IsMachineSizeWith m.now s.now.code s.now.mode s.now.bound (rail_count s.now.mode s.now.bound) l.now n × (n ≤ 1000000) }
    ensures { IfOk result (λ g. (regions : List Region)
        × IsGuardOf (guarded_of g m.now.inputs regions) m.now s.now.code s.now.mode s.now.bound (rail_count s.now.mode s.now.bound) l.now) }
{
    match s.mode {
        Mode::Detect => build(alloc, m, l, &s.code, s.bound),
        Mode::Correct => build_correcting(alloc, m, l, &s.code, s.bound),
    }
}
