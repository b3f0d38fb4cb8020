//! Definitions of texts, netlists, runs and gate lists.
#![tactic(auto)]

mod readings;
mod written;

ghost use Rattle.std.specs.Prelude.{◌≡◌, ℕ, length, List, None, ◌<◌};
ghost use Rattle.netlist_spec.specs.Ordered.{IsOrdered};
ghost use Rattle.netlist_spec.specs.Netlist.{File, Model};
ghost use Rattle.netlist_spec.specs.Lanes.{AreLaneFaults, IsLaneOf, LaneCycle, LaneFault, Lanes, cover_mean};
ghost use Rattle.netlist_spec.specs.ReadFaults.{read_fault};
ghost use Rattle.netlist_spec.specs.Reads.{Reads};
ghost use Rattle.netlist_spec.specs.FileRules.{IsFile};
ghost use Rattle.netlist_spec.specs.Runs.{Fault, Run};
ghost use Rattle.netlist_spec.specs.SourceRun.{Bits, Stream};
ghost use Rattle.netlist_spec.specs.Gates.{GateRun, IsMachine, Machine, NetFault};
ghost use Rattle.netlist_spec.specs.Covers.{Library};
ghost use Rattle.netlist_spec.specs.SoundFaults.{IsRefusedWith, SoundFault};
ghost use Rattle.netlist_spec.specs.Sound.{IsSound};
ghost use Rattle.netlist_spec.specs.Models.{data_inputs};
ghost use Rattle.std.specs.List.{AllByRecursion};

pub use readings::{first_faulty_line_decides, texts_are_read_or_refused};
pub use written::written_lines_are_cut_back;

/// A text says at most one file.
pub fn texts_have_one_reading()
    ensures { (bytes : List ℕ) (file other : File) → Reads bytes file → Reads bytes other → file ≡ other }
{}

/// On an ordered file a stream and a fault list have at most one run.
pub fn ordered_files_have_one_run()
    ensures { (file : File) → IsOrdered file → (xs : Stream) (faults : List Fault) (states outs states' outs' : List Bits)
        → Run file xs faults states outs → Run file xs faults states' outs' → (states ≡ states') × (outs ≡ outs') }
{}

/// A file that is read keeps what its type promises of every file, whatever its text is.
pub fn files_that_are_read_are_files()
    ensures { (bytes : List ℕ) (file : File) → Reads bytes file → IsFile file }
{}

/// A text that says a file has no fault, so a reader's answers exclude each other.
pub fn texts_that_are_read_have_no_fault()
    ensures { (bytes : List ℕ) (file : File) → Reads bytes file → read_fault bytes ≡ None }
{}

/// A sound file is refused with nothing, so an elaborator's answers exclude each other.
pub fn sound_files_are_not_refused()
    ensures { (file : File) (library : Library) → IsSound file library → (fault : SoundFault) → IsRefusedWith file library fault → ⊥ }
{}

/// On an ordered file each stream of its width has a run, whatever cells are faulty.
pub fn ordered_files_have_a_run()
    ensures { (file : File) (ordered : IsOrdered file) (xs : Stream) (faults : List Fault)
        → AllByRecursion (λ x. length (data_inputs ordered.model) ≡ length x) xs
        → (states outs : List Bits) × Run file xs faults states outs }
{}

/// A machine of gates has a run on each stream of its width, whatever cells are faulty.
pub fn machines_have_a_run()
    ensures { (m : Machine) → IsMachine m → (xs : Stream) (faults : List NetFault)
        → AllByRecursion (λ x. length x ≡ m.inputs) xs → (states outs : List Bits)
        × GateRun m xs faults states outs }
{}

/// Where the kernel's mean is the cover's value lane by lane, each lane of a cycle is a cycle of the file under the faults
/// whose mask has the bit of that lane.
pub fn lanes_are_runs()
    ensures { (m : Model) (lanes : ℕ) (x : Bits) (stored : List Lanes) (faults : List LaneFault) (y next : List Lanes)
        → LaneCycle m lanes (cover_mean lanes) x stored faults y next
        → AllByRecursion (λ row. length row ≡ lanes) stored → AreLaneFaults lanes faults → (j : ℕ)
        → j < lanes → IsLaneOf m j x stored faults y next }
{}
