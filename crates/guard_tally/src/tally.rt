// The tally of a guard.
ghost use Rattle.std.specs.Prelude.{◌≡◌, IfOk};
ghost use Rattle.netlist_spec.specs.Netlist.{File as SpecFile};
ghost use Rattle.guard_source.specs.Made.{IsGuardMade};
ghost use Rattle.guard_tally.specs.Tallied.{IsTallied};

use crate::guards_have_their_shape;
use blif_write::as_file;
use campaign::{Tally, single};
use guard_source::SourceGuard;
use settings::Settings;
use sim_text::Stimulus;
use std::alloc::{AllocError, Global};

/// What all single faults of one cycle do to a guard: the number of its cells, and how the two runs for each of them end.
#[derive(Drop)]
pub struct GuardTally {
    pub cells: u64,
    pub outcomes: Tally,
}

/// Tries each cell of a guard at 0 and at 1 in that cycle of the stimulus, beside the source's machine.
pub fn tally_guard(
    alloc: Global,
    g: &SourceGuard,
    s: &Settings,
    stimulus: &Stimulus,
    cycle: u32,
) -> Result<GuardTally, AllocError>
    requires made { (source : SpecFile) × IsGuardMade source s.now g.now.named g.now.machine g.now.layout }
    requires inputs { stimulus.now.inputs ≡ g.now.machine.inputs }
    ensures { IfOk result (λ t. IsTallied g.now.named g.now.machine s.now g.now.layout stimulus.now.cycles cycle t) }
{
    guards_have_their_shape();
    // The same file as the text that is written of the guard says.
    let file = as_file(alloc, &g.named)?;
    let outcomes = single(
        alloc, &file, stimulus, cycle, &g.machine, &g.layout, &s.code, s.mode, s.bound,
    )?;
    Ok(GuardTally {
        // Each latch and each gate is a cell.
        cells: u64::from(g.named.net.len() - g.named.data_inputs),
        outcomes,
    })
}
