// The load of a stimulus.
ghost use Rattle.std.specs.Prelude.{◌≡◌, IfOk};
ghost use Rattle.imp_io.specs.Files.{IsLater};
ghost use Rattle.netlist_spec.specs.SourceRun.{Stream};
ghost use Rattle.stimulus_spec.specs.Stimulus.{stimulus_of};
ghost use Rattle.program_spec.specs.Commands.{other_limit};
ghost use Rattle.program_spec.specs.Refusals.{bad_stimulus};
ghost use Rattle.program_spec.specs.Steps.{gives};
ghost use Rattle.impeccable.specs.Answers.{KeepsOwn};
ghost use Rattle.impeccable.specs.Ended.{part_answer};
ghost use Rattle.impeccable.specs.Loads.{LoadsTested};

use crate::ended::Stop;
use crate::load::load_named;
use imp_io::Files;
use sim_text::Stimulus;
use std::alloc::Global;

const LONGEST_STIMULUS: usize = 16_777_216;

/// Loads and reads the stimulus of that name, for so many data inputs.
pub(crate) fn load_stimulus<'a, F: Files>(
    alloc: Global,
    files: &mut F,
    stimulus: &'a str,
    inputs: u32,
) -> Result<Stimulus, Stop<'a>>
    ensures stream { LoadsTested Stream (F.seen files.old) stimulus.now other_limit (λ bytes. gives _ _ (stimulus_of inputs bytes) bad_stimulus) (λ made found. made.cycles ≡ found) result (F.seen files.new) }
    ensures width { IfOk result (λ made. made.inputs ≡ inputs) }
    ensures own { KeepsOwn (F.seen files.old) (F.seen files.new) (part_answer result) }
    ensures later { IsLater (F.seen files.old) (F.seen files.new) }
{
    let bytes = load_named(alloc, files, stimulus, LONGEST_STIMULUS)?;
    let stimulus = Stimulus::read(alloc, &bytes, inputs)?;
    Ok(stimulus)
}
