// The runs of a netlist, and what is seen of them.
ghost use Rattle.std.specs.Prelude.{◌≡◌, ◌+◌, ◌<◌, ◌≤◌, length, All, IfOk};
ghost use Rattle.netlist_spec.specs.FileRules.{IsFile};
ghost use Rattle.blif_read.specs.Ids.{HasIds};
ghost use Rattle.blif_read.specs.View.{file_of};
ghost use Rattle.fault_sim.specs.declared.faults.CellFault.{CellFault as Fault};
ghost use Rattle.campaign.specs.Runs.{IsCycle, IsMade, IsReady, RunsOn, faults_after};

use crate::cycle::seen_at;
use crate::seen::Seen;
use crate::task::Task;
use blif_read::File;
use fault_sim::{CellFault, Sim};
use std::alloc::{AllocError, Global};
use tally_laws::{outcomes_are_seen, runs_are_in_parts};

/// A netlist that is simulated, and the bits of its data inputs and of its outputs in one cycle.
#[derive(Drop)]
pub(crate) struct Runner {
    pub(crate) sim: Sim,
    pub(crate) inputs: Vec<bool>,
    pub(crate) outputs: Vec<bool>,
}

/// The runner of a file that is in order.
pub(crate) fn runner_of(alloc: Global, f: &File) -> Result<Runner, AllocError>
    requires ids { All HasIds f.now.models.items }
    requires is_file { IsFile (file_of f.now) }
    ensures { IfOk result (IsMade (file_of f.now)) }
{
    // The file is in order, so that nothing but memory can be wanting.
    let Ok(sim) = Sim::new(alloc, f) else {
        return Err(AllocError);
    };
    let inputs = vec![in alloc; false; sim.inputs() as usize]?;
    let outputs = vec![in alloc; false; sim.outputs() as usize]?;
    Ok(Runner {
        sim,
        inputs,
        outputs,
    })
}

/// Runs one cycle under some faults.
pub(crate) fn run_cycle(runner: &mut Runner, task: &Task<'_>, c: u32, faults: &[CellFault]) -> Seen
    requires ready { IsReady task.now runner.old }
    requires cycle { c < length task.now.stimulus.now.cycles }
    requires cells { All (λ (f : Fault). f.cell.0 < length runner.old.sim.cells) faults.now }
    ensures { IsCycle task.now runner.old c faults.now result runner.new }
{
    task.stimulus.row(c, &mut runner.inputs);
    runner
        .sim
        .cycle(&runner.inputs, faults, &mut runner.outputs);
    seen_at(task, &task.wanted[c as usize], &runner.outputs)
}

/// The faults of a run so many cycles behind its first one, which alone has faults.
pub(crate) fn faults_in(later: u32, faults: &[CellFault]) -> &[CellFault]
    ensures { result.now ≡ faults_after later faults.now }
{
    if later == 0 { faults } else { &faults[..0] }
}

/// Runs so many cycles, of which the first has these faults.
pub(crate) fn run_on(
    runner: &mut Runner,
    task: &Task<'_>,
    first: u32,
    count: u32,
    faults: &[CellFault],
) -> Seen
    requires ready { IsReady task.now runner.old }
    requires cycles { first + count ≤ length task.now.stimulus.now.cycles }
    requires cells { All (λ (f : Fault). f.cell.0 < length runner.old.sim.cells) faults.now }
    ensures { RunsOn task.now runner.old first count faults.now result runner.new }
{
    // What the laws say is known behind their calls.
    runs_are_in_parts();
    outcomes_are_seen();
    let mut part = Seen::nothing();
    for i in 0..count {
        let here = run_cycle(runner, task, first + i, faults_in(i, faults));
        part = part.then(here);
    }
    part
}
