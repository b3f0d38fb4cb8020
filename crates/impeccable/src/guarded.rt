// A guard of the netlist of one name by the settings of another.
ghost use Rattle.imp_io.specs.Files.{IsLater};
ghost use Rattle.impeccable.specs.Answers.{KeepsOwn};
ghost use Rattle.impeccable.specs.Ended.{part_answer};
ghost use Rattle.impeccable.specs.Guarded.{MakesGuard};

use crate::ended::Stop;
use crate::netlist::load_netlist;
use crate::settings_file::load_settings;
use guard_source::{SourceGuard, guard_source};
use imp_io::Files;
use settings::{Settings, strength};
use std::alloc::Global;

/// Settings, and the guard of a netlist by them.
#[derive(Drop)]
pub(crate) struct Guarded {
    pub(crate) settings: Settings,
    pub(crate) guard: SourceGuard,
}

/// Loads and reads the two files, in the order in which they are refused, and makes the guard.
pub(crate) fn make_guard<'a, F: Files>(
    alloc: Global,
    settings: &'a str,
    netlist: &'a str,
    files: &mut F,
) -> Result<Guarded, Stop<'a>>
    ensures guard { MakesGuard settings.now netlist.now (F.seen files.old) result (F.seen files.new) }
    ensures own { KeepsOwn (F.seen files.old) (F.seen files.new) (part_answer result) }
    ensures later { IsLater (F.seen files.old) (F.seen files.new) }
{
    let settings = load_settings(alloc, files, settings)?;
    strength(&settings)?;
    let file = load_netlist(alloc, files, netlist)?;
    let guard = guard_source(alloc, file, &settings)?;
    Ok(Guarded { settings, guard })
}
