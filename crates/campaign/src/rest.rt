// The rest of the run without faults, for runs with a fault that meet it.
ghost use Rattle.std.specs.Prelude.{◌≡◌, ◌+◌, ◌≤◌, length, IfOk, IfSome};
ghost use Rattle.campaign.specs.Runs.{IsReady};
ghost use Rattle.campaign.specs.Rests.{IsKept, KeepsAll, KeepsRest};

use crate::runner::{Runner, run_cycle, run_on};
use crate::seen::Seen;
use crate::task::Task;
use std::alloc::{AllocError, Global};

// In so many cycles behind a fault its run may meet the run without. Guards mend their stored bits, or load new ones, within
// a few cycles or hardly ever, and the stored bits of all cycles of a long stimulus would take much memory.
const MOST_MEETINGS: u32 = 16;

/// A cycle of the run without faults: the bits that the latches have stored before it, and what is seen from it to the end.
#[derive(Drop)]
pub(crate) struct Meeting {
    pub(crate) cycle: u32,
    pub(crate) stored: Vec<bool>,
    pub(crate) rest: Seen,
}

// Runs all cycles from this one on without faults, and keeps the cycles that come next, so many of them and the last first.
fn keep_rest(
    alloc: Global,
    runner: &mut Runner,
    task: &Task<'_>,
    cycle: u32,
    count: u32,
    kept: &mut Vec<Meeting>,
) -> Result<Seen, AllocError>
    requires ready { IsReady task.now runner.old }
    requires cycles { cycle + count ≤ length task.now.stimulus.now.cycles }
    ensures { IfOk result (λ rest. KeepsRest task.now runner.old cycle kept.old.items rest kept.new.items runner.new) }
{
    if count == 0 {
        let left = task.stimulus.cycles() - cycle;
        return Ok(run_on(runner, task, cycle, left, &[]));
    }
    let here = run_cycle(runner, task, cycle, &[]);
    let stored = runner.sim.stored().to_vec(alloc)?;
    let rest = keep_rest(alloc, runner, task, cycle + 1, count - 1, kept)?;
    kept.push(Meeting {
        cycle: cycle + 1,
        stored,
        rest,
    })?;
    Ok(here.then(rest))
}

/// Runs all cycles from this one on without faults. Behind it a run with a fault in it may meet what is kept.
pub(crate) fn meetings_behind(
    alloc: Global,
    runner: &mut Runner,
    task: &Task<'_>,
    cycle: u32,
) -> Result<Vec<Meeting>, AllocError>
    requires ready { IsReady task.now runner.old }
    requires cycle { cycle ≤ length task.now.stimulus.now.cycles }
    ensures { IfOk result (λ kept. KeepsAll task.now runner.old kept.items runner.new) }
{
    let mut kept = Vec::new(alloc);
    let count = MOST_MEETINGS.min(task.stimulus.cycles() - cycle);
    keep_rest(alloc, runner, task, cycle, count, &mut kept)?;
    Ok(kept)
}

/// What is seen of the run without faults from this cycle on, where it was kept and has these bits stored.
pub(crate) fn rest_from(meetings: &[Meeting], cycle: u32, stored: &[bool]) -> Option<Seen>
    ensures { IfSome result (λ rest. IsKept meetings.now cycle stored.now rest) }
{
    for meeting in meetings {
        if meeting.cycle == cycle && meeting.stored.as_slice() == stored {
            return Some(meeting.rest);
        }
    }
    None
}
