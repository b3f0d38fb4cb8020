// The command `guard SETTINGS NETLIST`.
ghost use Rattle.imp_io.specs.Files.{IsLater};
ghost use Rattle.program_spec.specs.Commands.{guard as guard_command};
ghost use Rattle.impeccable.specs.Answers.{Answers, KeepsOwn};
ghost use Rattle.impeccable.specs.Ended.{answer_of};

use crate::ended::{Ended, Success};
use crate::guarded::make_guard;
use blif_write::write;
use imp_io::{Files, Sink};
use std::alloc::Global;

/// Writes the guard of the netlist of that name, by the settings of the other.
pub(crate) fn write_guard<'a, F: Files, O: Sink>(
    alloc: Global,
    settings: &'a str,
    netlist: &'a str,
    files: &mut F,
    out: &mut O,
) -> Ended<'a>
    ensures answers { Answers (guard_command settings.now netlist.now) (F.seen files.old) (F.seen files.new) (O.seen out.old) (O.seen out.new) (answer_of result) }
    ensures own { KeepsOwn (F.seen files.old) (F.seen files.new) (answer_of result) }
    ensures later { IsLater (F.seen files.old) (F.seen files.new) }
{
    let guarded = make_guard(alloc, settings, netlist, files)?;
    write(&guarded.guard.named, out)?;
    Ok(Success::Done)
}
