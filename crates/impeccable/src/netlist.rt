// The load of a netlist.
ghost use Rattle.std.specs.Prelude.{◌≡◌, All, IfOk};
ghost use Rattle.imp_io.specs.Files.{IsLater};
ghost use Rattle.netlist_spec.specs.FileRules.{IsFile};
ghost use Rattle.netlist_spec.specs.Netlist.{File as SpecFile};
ghost use Rattle.blif_read.specs.Ids.{HasIds};
ghost use Rattle.blif_read.specs.View.{file_of};
ghost use Rattle.program_spec.specs.Commands.{netlist_limit};
ghost use Rattle.program_spec.specs.Steps.{reading};
ghost use Rattle.impeccable.specs.Answers.{KeepsOwn};
ghost use Rattle.impeccable.specs.Ended.{part_answer};
ghost use Rattle.impeccable.specs.Loads.{LoadsTested};

use crate::ended::Stop;
use crate::load::load_named;
use blif_read::{File, read};
use imp_io::Files;
use std::alloc::Global;

const LONGEST_NETLIST: usize = 268_435_456;

/// Loads and reads the netlist of that name.
pub(crate) fn load_netlist<'a, F: Files>(
    alloc: Global,
    files: &mut F,
    netlist: &'a str,
) -> Result<File, Stop<'a>>
    ensures file { LoadsTested SpecFile (F.seen files.old) netlist.now netlist_limit reading (λ made found. file_of made ≡ found) result (F.seen files.new) }
    ensures is_file { IfOk result (λ file. IsFile (file_of file)) }
    ensures ids { IfOk result (λ file. All HasIds file.models.items) }
    ensures own { KeepsOwn (F.seen files.old) (F.seen files.new) (part_answer result) }
    ensures later { IsLater (F.seen files.old) (F.seen files.new) }
{
    let bytes = load_named(alloc, files, netlist, LONGEST_NETLIST)?;
    let file = read(alloc, &bytes)?;
    Ok(file)
}
