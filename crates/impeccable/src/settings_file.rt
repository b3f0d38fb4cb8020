// The load of settings.
ghost use Rattle.std.specs.Prelude.{◌≡◌};
ghost use Rattle.imp_io.specs.Files.{IsLater};
ghost use Rattle.guard_spec.specs.Words.{Settings as SpecSettings};
ghost use Rattle.program_spec.specs.Commands.{other_limit};
ghost use Rattle.program_spec.specs.Steps.{settings_in};
ghost use Rattle.impeccable.specs.Answers.{KeepsOwn};
ghost use Rattle.impeccable.specs.Ended.{part_answer};
ghost use Rattle.impeccable.specs.Loads.{LoadsTested};

use crate::ended::Stop;
use crate::load::load_named;
use imp_io::Files;
use settings::{Settings, read};
use std::alloc::Global;

const LONGEST_SETTINGS: usize = 16_777_216;

/// Loads and reads the settings of that name.
pub(crate) fn load_settings<'a, F: Files>(
    alloc: Global,
    files: &mut F,
    settings: &'a str,
) -> Result<Settings, Stop<'a>>
    ensures settings { LoadsTested SpecSettings (F.seen files.old) settings.now other_limit settings_in (λ made found. made ≡ found) result (F.seen files.new) }
    ensures own { KeepsOwn (F.seen files.old) (F.seen files.new) (part_answer result) }
    ensures later { IsLater (F.seen files.old) (F.seen files.new) }
{
    let bytes = load_named(alloc, files, settings, LONGEST_SETTINGS)?;
    let settings = read(alloc, &bytes)?;
    Ok(settings)
}
