// The command `campaign SETTINGS NETLIST STIMULUS CYCLE`.
ghost use Rattle.imp_io.specs.Files.{IsLater};
ghost use Rattle.imp_io.specs.Sink.{Puts};
ghost use Rattle.guard_tally.specs.Tallied.{lines_of};
ghost use Rattle.program_spec.specs.Commands.{campaign as campaign_command};
ghost use Rattle.impeccable.specs.Answers.{Answers, KeepsOwn};
ghost use Rattle.impeccable.specs.Campaign.{campaign_text};
ghost use Rattle.impeccable.specs.Ended.{answer_of, is_done, part_answer};
ghost use Rattle.impeccable.specs.Steps.{Prepares};

use crate::ended::{Ended, Stop, Success};
use crate::guarded::{Guarded, make_guard};
use crate::lines::put_tally;
use crate::stimulus_file::load_stimulus;
use blif_write::write;
use guard_tally::{GuardTally, tallies_make_a_text, tally_guard};
use imp_io::{Blocks, Files, Sink, SinkFault};
use std::alloc::Global;

// A guard, and what single faults do to it.
#[derive(Drop)]
struct Tried {
    guarded: Guarded,
    tally: GuardTally,
}

/// Guards the netlist of that name, and writes what each single fault of the cycle does to the guard on the stimulus, and
/// then the guard.
pub(crate) fn write_campaign<'a, F: Files, O: Sink>(
    alloc: Global,
    settings: &'a str,
    netlist: &'a str,
    stimulus: &'a str,
    cycle: u32,
    files: &mut F,
    out: &mut O,
) -> Ended<'a>
    ensures answers { Answers (campaign_command settings.now netlist.now stimulus.now cycle) (F.seen files.old) (F.seen files.new) (O.seen out.old) (O.seen out.new) (answer_of result) }
    ensures own { KeepsOwn (F.seen files.old) (F.seen files.new) (answer_of result) }
    ensures later { IsLater (F.seen files.old) (F.seen files.new) }
{
    let tried = try_guard(alloc, settings, netlist, stimulus, cycle, files)?;
    write_tally(&tried.tally, out)?;
    write(&tried.guarded.guard.named, out)?;
    Ok(Success::Done)
}

// Makes the guard, loads and reads the stimulus, and tries all single faults of the cycle.
fn try_guard<'a, F: Files>(
    alloc: Global,
    settings: &'a str,
    netlist: &'a str,
    stimulus: &'a str,
    cycle: u32,
    files: &mut F,
) -> Result<Tried, Stop<'a>>
    ensures prepares { Prepares (campaign_command settings.now netlist.now stimulus.now cycle) is_done campaign_text (F.seen files.old) result (F.seen files.new) }
    ensures own { KeepsOwn (F.seen files.old) (F.seen files.new) (part_answer result) }
    ensures later { IsLater (F.seen files.old) (F.seen files.new) }
{
    // What the law says is known behind its call.
    tallies_make_a_text();
    let guarded = make_guard(alloc, settings, netlist, files)?;
    let guard = &guarded.guard;
    let stimulus = load_stimulus(alloc, files, stimulus, guard.machine.inputs)?;
    let tally = tally_guard(alloc, guard, &guarded.settings, &stimulus, cycle)?;
    Ok(Tried { guarded, tally })
}

fn write_tally<O: Sink>(tally: &GuardTally, out: &mut O) -> Result<(), SinkFault>
    ensures { Puts (O.seen out.old) (lines_of tally.now) result (O.seen out.new) }
{
    let mut blocks = Blocks::new(out);
    put_tally(tally, &mut blocks);
    blocks.flush()
}
