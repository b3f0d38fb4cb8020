// All faults of one cycle, sorted by what their runs come to.
ghost use Rattle.std.specs.Prelude.{◌≡◌, ◌+◌, ◌*◌, ◌<◌, ◌≤◌, ◌^◌, length};
ghost use Rattle.tally_laws.specs.Counts.{total};
ghost use Rattle.campaign.specs.Views.{tally_in};
ghost use Rattle.campaign.specs.Runs.{IsReady};
ghost use Rattle.campaign.specs.Sorted.{CountsCell, CountsCells, Sorts, Stops};

use crate::rest::{Meeting, rest_from};
use crate::runner::{Runner, faults_in, run_cycle};
use crate::seen::{Outcome, Seen};
use crate::tally::Tally;
use crate::task::Task;
use fault_sim::{CellFault, CellId};
use tally_laws::{
    faults_are_sorted_by_parts, outcomes_are_seen, runs_are_in_parts, settled_runs_are_sorted,
    tallies_add_up,
};

/// Where the runs with a fault leave the run without: the cycle, the bits that the latches have stored by then, what is seen
/// of the cycles before, and where they may meet it again.
#[derive(Clone, Copy)]
pub(crate) struct Fork<'a> {
    pub(crate) cycle: u32,
    pub(crate) stored: &'a [bool],
    pub(crate) before: Seen,
    pub(crate) meetings: &'a [Meeting],
}

// Runs cycles with this fault in the first of them, until no later cycle can change the outcome, or the stored bits are those
// of the run without. What is seen of the cycles before, and of the rest of the run without, is seen too.
fn run_until_known(runner: &mut Runner, task: &Task<'_>, fork: &Fork<'_>, fault: CellFault) -> Seen
    requires ready { IsReady task.now runner.old }
    requires cycle { fork.now.cycle ≤ length task.now.stimulus.now.cycles }
    requires cell { fault.cell.0 < length runner.old.sim.cells }
    ensures { Stops task.now runner.old fork.now fault result runner.new }
{
    runs_are_in_parts();
    outcomes_are_seen();
    let faults = [fault];
    let mut part = Seen::nothing();
    for i in 0..task.stimulus.cycles() - fork.cycle {
        let so_far = fork.before.then(part);
        if so_far.is_settled(task.mode) {
            return so_far;
        }
        let here = run_cycle(runner, task, fork.cycle + i, faults_in(i, &faults));
        part = part.then(here);
        let next = fork.cycle + i + 1;
        if let Some(rest) = rest_from(fork.meetings, next, runner.sim.stored()) {
            return fork.before.then(part).then(rest);
        }
    }
    fork.before.then(part)
}

// The outcome of the run with this fault.
fn outcome_under(runner: &mut Runner, task: &Task<'_>, fork: &Fork<'_>, fault: CellFault) -> Outcome
    requires ready { IsReady task.now runner.old }
    requires stored { length fork.now.stored.now ≡ length runner.old.sim.stores }
    requires cycle { fork.now.cycle ≤ length task.now.stimulus.now.cycles }
    requires cell { fault.cell.0 < length runner.old.sim.cells }
    ensures { Sorts task.now runner.old fork.now fault result runner.new }
{
    // What the laws say is known behind their calls.
    faults_are_sorted_by_parts();
    settled_runs_are_sorted();
    outcomes_are_seen();
    runner.sim.restore(fork.stored);
    run_until_known(runner, task, fork, fault).outcome(task.mode)
}

// Counts the two faults of a cell.
fn count_cell(tally: &mut Tally, runner: &mut Runner, task: &Task<'_>, fork: &Fork<'_>, cell: u32)
    requires ready { IsReady task.now runner.old }
    requires stored { length fork.now.stored.now ≡ length runner.old.sim.stores }
    requires cycle { fork.now.cycle ≤ length task.now.stimulus.now.cycles }
    requires cell { cell < length runner.old.sim.cells }
    requires few { total (tally_in tally.old) ≡ 2 * cell }
    ensures { CountsCell task.now runner.old fork.now cell tally.old tally.new runner.new }
{
    tallies_add_up();
    let cell = CellId(cell);
    let stuck_at_zero = CellFault { cell, value: false };
    let zero = outcome_under(runner, task, fork, stuck_at_zero);
    tally.count(zero);
    let stuck_at_one = CellFault { cell, value: true };
    let one = outcome_under(runner, task, fork, stuck_at_one);
    tally.count(one);
}

/// The counts of the two faults of each cell.
pub(crate) fn count_cells(runner: &mut Runner, task: &Task<'_>, fork: &Fork<'_>) -> Tally
    requires ready { IsReady task.now runner.old }
    requires stored { length fork.now.stored.now ≡ length runner.old.sim.stores }
    requires cycle { fork.now.cycle ≤ length task.now.stimulus.now.cycles }
    ensures { CountsCells task.now runner.old fork.now (length runner.old.sim.cells) result runner.new }
{
    let mut tally = Tally::default();
    for cell in 0..runner.sim.cells() {
        count_cell(&mut tally, runner, task, fork, cell);
    }
    tally
}
