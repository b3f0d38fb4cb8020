// The tally of all single faults of one cycle.
ghost use Rattle.std.specs.Prelude.{◌≡◌, ◌+◌, ◌*◌, length, All, IfOk};
ghost use Rattle.netlist_spec.specs.FileRules.{IsFile};
ghost use Rattle.netlist_spec.specs.Models.{data_inputs, output_nets};
ghost use Rattle.netlist_spec.specs.Ordered.{IsOrdered};
ghost use Rattle.blif_read.specs.Ids.{HasIds};
ghost use Rattle.blif_read.specs.View.{file_of};
ghost use Rattle.guard_spec.specs.Codes.{data_places, rail_count};
ghost use Rattle.guard_spec.specs.Tally.{IsMachineTally};
ghost use Rattle.guard_spec.specs.Words.{IsPartition};
ghost use Rattle.settings.specs.Types.{mode_in};
ghost use Rattle.campaign.specs.Runs.{IsGuardShape};
ghost use Rattle.campaign.specs.Views.{tally_in};

use crate::rest::meetings_behind;
use crate::runner::{run_on, runner_of};
use crate::sort::{Fork, count_cells};
use crate::source::shown_rows;
use crate::tally::Tally;
use crate::task::Task;
use blif_read::File;
use block_code::Code;
use encode_state::types::Layout;
use gate_net::Machine;
use settings::Mode;
use sim_text::Stimulus;
use std::alloc::{AllocError, Global};

/// How many single faults of a guard in that cycle end in each outcome, on a stimulus and beside its source: one run for each
/// cell and each of 0 and 1. The guard is in order; its outputs are those of the source, then the check bits of each output
/// word, and then the rails.
pub fn single(
    alloc: Global,
    f: &File,
    stimulus: &Stimulus,
    cycle: u32,
    source: &Machine,
    l: &Layout,
    code: &Code,
    mode: Mode,
    t: u8,
) -> Result<Tally, AllocError>
    requires ids { All HasIds f.now.models.items }
    requires is_file { IsFile (file_of f.now) }
    requires ordered { IsOrdered (file_of f.now) }
    requires shape { IsGuardShape (file_of f.now) source.now l.now code.now (rail_count (mode_in mode) t) }
    requires inputs { stimulus.now.inputs ≡ source.now.inputs }
    requires words { IsPartition (length source.now.outputs) (data_places code.now) l.now.output }
    ensures { IfOk result (λ tally. IsMachineTally (file_of f.now) source.now code.now l.now (mode_in mode) t stimulus.now.cycles cycle (tally_in tally)) }
{
    let wanted = shown_rows(alloc, source, stimulus)?;
    let mut runner = runner_of(alloc, f)?;
    let task = Task {
        stimulus,
        wanted: &wanted,
        outputs: source.outputs.len() as u32,
        layout: l,
        code,
        mode,
        bound: t,
    };
    let first = cycle.min(stimulus.cycles());
    let before = run_on(&mut runner, &task, 0, first, &[]);
    let stored = runner.sim.stored().to_vec(alloc)?;
    let meetings = meetings_behind(alloc, &mut runner, &task, first)?;
    let fork = Fork {
        cycle: first,
        stored: &stored,
        before,
        meetings: &meetings,
    };
    Ok(count_cells(&mut runner, &task, &fork))
}
