// The command `flat NETLIST`.
ghost use Rattle.std.specs.Prelude.{ℕ, List, All, IfErr, IfOk, IfSome, OnOk};
ghost use Rattle.imp_io.specs.Files.{IsLater};
ghost use Rattle.program_spec.specs.Commands.{flat as flat_command};
ghost use Rattle.netlist_spec.specs.Covers.{empty_library};
ghost use Rattle.netlist_spec.specs.FileRules.{IsFile};
ghost use Rattle.netlist_spec.specs.Reads.{Reads};
ghost use Rattle.netlist_spec.specs.Sound.{IsSound};
ghost use Rattle.netlist_spec.specs.SoundFaults.{IsRefusedWith};
ghost use Rattle.netlist_spec.specs.WrittenText.{IsFlatText};
ghost use Rattle.blif_read.specs.Ids.{HasIds};
ghost use Rattle.blif_read.specs.View.{file_of};
ghost use Rattle.source_check.specs.Faults.{fault_of};
ghost use Rattle.impeccable.specs.Answers.{Answers, KeepsOwn};
ghost use Rattle.impeccable.specs.Ended.{answer_of, is_done, part_answer};
ghost use Rattle.impeccable.specs.Flat.{named_text};
ghost use Rattle.impeccable.specs.Steps.{Prepares};

use crate::ended::{Ended, Stop, Success};
use crate::netlist::load_netlist;
use blif_read::File;
use blif_write::write;
use elaborate::{ElabFault, elaborate};
use elaborated::{elaborated_sources_are_written_flat, flat, name_flat};
use imp_io::{Files, Sink};
use named_netlist::Named;
use std::alloc::Global;

/// Writes the flat netlist of the netlist of that name.
pub(crate) fn write_flat<'a, F: Files, O: Sink>(
    alloc: Global,
    netlist: &'a str,
    files: &mut F,
    out: &mut O,
) -> Ended<'a>
    ensures answers { Answers (flat_command netlist.now) (F.seen files.old) (F.seen files.new) (O.seen out.old) (O.seen out.new) (answer_of result) }
    ensures own { KeepsOwn (F.seen files.old) (F.seen files.new) (answer_of result) }
    ensures later { IsLater (F.seen files.old) (F.seen files.new) }
{
    let named = read_netlist(alloc, netlist, files)?;
    write(&named, out)?;
    Ok(Success::Done)
}

// Loads and reads the netlist, and makes its flat netlist.
fn read_netlist<'a, F: Files>(
    alloc: Global,
    netlist: &'a str,
    files: &mut F,
) -> Result<Named, Stop<'a>>
    ensures prepares { Prepares (flat_command netlist.now) is_done named_text (F.seen files.old) result (F.seen files.new) }
    ensures own { KeepsOwn (F.seen files.old) (F.seen files.new) (part_answer result) }
    ensures later { IsLater (F.seen files.old) (F.seen files.new) }
{
    let file = load_netlist(alloc, files, netlist)?;
    let named = flatten(alloc, file)?;
    Ok(named)
}

// The flat netlist of a file that has a meaning without a library.
fn flatten(alloc: Global, file: File) -> Result<Named, ElabFault>
    requires ids { All HasIds file.models.items }
    requires is_file { IsFile (file_of file) }
    ensures sound { OnOk result (IsSound (file_of file) empty_library) }
    ensures flat { IfOk result (λ g. (netlist : List ℕ)
        → Reads netlist (file_of file) → IsFlatText netlist (named_text g) empty_library) }
    ensures refused { IfErr result (λ fault. IfSome (fault_of fault) (IsRefusedWith (file_of file) empty_library)) }
{
    // What the law says is known behind its call.
    elaborated_sources_are_written_flat();
    let elaborated = elaborate(alloc, file, &[], &[])?;
    let nets = flat(alloc, &elaborated)?;
    let named = name_flat(alloc, elaborated, nets)?;
    Ok(named)
}
