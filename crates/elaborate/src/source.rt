// From a source to its machine of gates.
ghost use Rattle.std.specs.Prelude.{◌≡◌, ◌++◌, ℕ, List, All, IfErr, IfOk, IfSome, IsOkUnless, IsTrue, MatchResult, OnOk, map};
ghost use Rattle.netlist_spec.specs.Covers.{IsLibrary};
ghost use Rattle.netlist_spec.specs.Elaborated.{IsElaborated};
ghost use Rattle.netlist_spec.specs.FileRules.{IsFile};
ghost use Rattle.netlist_spec.specs.Fits.{Fits, Valuation};
ghost use Rattle.netlist_spec.specs.Netlist.{Model as SpecModel, are_distinct};
ghost use Rattle.netlist_spec.specs.Sound.{IsMain, IsSound, driven_nets, read_nets};
ghost use Rattle.netlist_spec.specs.SoundFaults.{IsRefusedWith, SoundFault};
ghost use Rattle.source_laws.specs.Agreement.{AgreeOn};
ghost use Rattle.source_laws.specs.Settling.{given_nets};
ghost use Rattle.blif_read.specs.Ids.{HasIds};
ghost use Rattle.blif_read.specs.View.{file_of, model_of};
ghost use Rattle.sbox_table.specs.declared.table.NamedTable.{NamedTable as ReadTable};
ghost use Rattle.linear_layer.specs.declared.layer.NamedLinear.{NamedLinear as ReadLinear};
ghost use Rattle.source_nets.specs.Survey.{library_of};
ghost use Rattle.source_check.specs.Checked.{IsChecked};
ghost use Rattle.source_check.specs.Faults.{fault_of, HasNoRefusal, IsOnlyRefusal};
ghost use Rattle.elaborate.specs.Named.{IsElaboratedByNames};

use crate::named::named_source;
use blif_read::{File, Model};
use elaborated::Elaborated;
use gate_net::Machine;
use linear_layer::NamedLinear;
use sbox_table::NamedTable;
use source_check::{Checked, ElabFault, check};
use source_laws::{fitting_valuations_agree, numbered_sources_are_elaborated, sound_sources_step};
use source_machine::machine_of;
use source_nets::{Source, port_marks};
use std::alloc::{AllocError, Global};

/// The machine of gates that a file stands for with a library, with the names of its main model, or the first refusal of the
/// file. The names of the tables are distinct, and those of the linear layers.
pub fn elaborate(
    alloc: Global,
    file: File,
    tables: &[NamedTable],
    linears: &[NamedLinear],
) -> Result<Elaborated, ElabFault>
    requires ids { All HasIds file.models.items }
    requires is_file { IsFile (file_of file) }
    requires tables { IsTrue (are_distinct (map (λ (t : ReadTable). t.name) tables.now)) }
    requires linears { IsTrue (are_distinct (map (λ (l : ReadLinear). l.name) linears.now)) }
    ensures sound { OnOk result (IsSound (file_of file) (library_of tables.now linears.now)) }
    ensures elaborated { IfOk result (λ e. (m : SpecModel) → IsMain (file_of file) m → IsElaborated (file_of file) (library_of tables.now linears.now) m e) }
    ensures refused { IfErr result (λ fault. IfSome (fault_of fault) (IsRefusedWith (file_of file) (library_of tables.now linears.now))) }
    // A file is exactly one of sound and refused: the answer says which, unless it is want of memory.
    ensures decided { MatchResult result
        (λ e. IsSound (file_of file) (library_of tables.now linears.now) × HasNoRefusal (file_of file) (library_of tables.now linears.now))
        (λ fault. IfSome (fault_of fault) (IsOnlyRefusal (file_of file) (library_of tables.now linears.now))) }
    // Where memory suffices, a sound file isn't refused, and one that is refused is told its refusal.
    ensures accepted { IsSound (file_of file) (library_of tables.now linears.now) → IsOkUnless result ElabFault.NoMemory }
    ensures told { (fault : SoundFault) → IsRefusedWith (file_of file) (library_of tables.now linears.now) fault
        → MatchResult result (λ e. ⊥) (λ other. IfSome (fault_of other) (λ told. told ≡ fault)) }
    // Whatever bits the inputs, clocks and latch outputs of the main model have, one assignment of bits to its nets fits.
    ensures fits { OnOk result ((m : SpecModel) (given : Valuation) → IsLibrary (library_of tables.now linears.now) → IsMain (file_of file) m
        → (v : Valuation) × Fits (file_of file) (library_of tables.now linears.now) m v × AgreeOn v given (given_nets m)) }
    ensures fits_once { OnOk result ((m : SpecModel) (v w : Valuation) → IsMain (file_of file) m
        → Fits (file_of file) (library_of tables.now linears.now) m v → Fits (file_of file) (library_of tables.now linears.now) m w → AgreeOn v w (given_nets m)
        → AgreeOn v w (driven_nets (file_of file) (library_of tables.now linears.now) m ++ read_nets (file_of file) (library_of tables.now linears.now) m)) }
{
    sound_sources_step();
    fitting_valuations_agree();
    let checked = check(alloc, &file, tables, linears)?;
    let e = elaborate_checked(alloc, file, tables, linears, &checked)?;
    Ok(e)
}

/// The machine of a sound file as `elaborate` gives it, for a caller that has what the check of the file gave: nothing is
/// checked again.
pub fn elaborate_checked(
    alloc: Global,
    file: File,
    tables: &[NamedTable],
    linears: &[NamedLinear],
    checked: &Checked,
) -> Result<Elaborated, AllocError>
    requires ids { All HasIds file.models.items }
    requires is_file { IsFile (file_of file) }
    requires sound { IsSound (file_of file) (library_of tables.now linears.now) }
    requires checked { IsChecked (file_of file) (library_of tables.now linears.now) checked.now }
    ensures elaborated { IfOk result (λ e. (m : SpecModel) → IsMain (file_of file) m → IsElaborated (file_of file) (library_of tables.now linears.now) m e) }
{
    let machine = checked_machine(alloc, &file, tables, linears, checked)?;
    let e = named_source(alloc, main_model(file), machine)?;
    Ok(e)
}

// The machine of gates of a sound file.
pub(crate) fn checked_machine(
    alloc: Global,
    file: &File,
    tables: &[NamedTable],
    linears: &[NamedLinear],
    checked: &Checked,
) -> Result<Machine, AllocError>
    requires ids { All HasIds file.now.models.items }
    requires is_file { IsFile (file_of file.now) }
    requires sound { IsSound (file_of file.now) (library_of tables.now linears.now) }
    requires checked { IsChecked (file_of file.now) (library_of tables.now linears.now) checked.now }
    ensures elaborated { IfOk result (λ machine. IsElaboratedByNames (file_of file.now) (library_of tables.now linears.now) machine) }
{
    numbered_sources_are_elaborated();
    let ports = port_marks(alloc, &file.models)?;
    let source = Source {
        file,
        tables,
        linears,
        ports: &ports,
    };
    machine_of(alloc, &source, checked)
}

// The main model of a file, which is moved.
pub(crate) fn main_model(file: File) -> Model
    requires ids { All HasIds file.models.items }
    requires is_file { IsFile (file_of file) }
    ensures main { IsMain (file_of file) (model_of result) }
    ensures ids { HasIds result }
{
    let mut models = file.models;
    models.swap_remove(0)
}
