// The check of a source.
ghost use Rattle.std.specs.Prelude.{◌≡◌, All, IfErr, IfOk, IfSome, IsOkUnless, IsTrue, MatchResult, OnOk, map};
ghost use Rattle.netlist_spec.specs.FileRules.{IsFile};
ghost use Rattle.netlist_spec.specs.Netlist.{are_distinct};
ghost use Rattle.netlist_spec.specs.Sound.{IsSound};
ghost use Rattle.netlist_spec.specs.SoundFaults.{IsRefusedWith, SoundFault};
ghost use Rattle.blif_read.specs.Ids.{HasIds};
ghost use Rattle.blif_read.specs.View.{file_of};
ghost use Rattle.sbox_table.specs.declared.table.NamedTable.{NamedTable as ReadTable};
ghost use Rattle.linear_layer.specs.declared.layer.NamedLinear.{NamedLinear as ReadLinear};
ghost use Rattle.source_nets.specs.Ports.{IsSource, source_file, source_library};
ghost use Rattle.source_nets.specs.Survey.{library_of};
ghost use Rattle.source_models.specs.Order.{IsPlacedFirst};
ghost use Rattle.source_check.specs.Checked.{IsChecked};
ghost use Rattle.source_check.specs.Faults.{fault_of, HasNoRefusal, IsOnlyRefusal};
ghost use Rattle.source_check.specs.Steps.{HasUsedMarks, PassesBelow};

use crate::main_tests::{check_clocking, check_limits, check_reserved};
use crate::model_tests::{
    check_depth, check_drivers, check_latches, check_loops, check_names, check_ports, check_reads,
    check_recursion,
};
use crate::{Checked, ElabFault, files_are_not_both_and_refused_once};
use blif_read::File;
use linear_layer::NamedLinear;
use sbox_table::NamedTable;
use source_laws::passed_files_are_sound;
use source_models::used_models;
use source_nets::{Source, Survey, port_marks, survey};
use std::alloc::Global;

/// Whether a file has a meaning with a library: all that an elaboration starts from, or the first refusal. The names of the
/// tables are distinct, and those of the linear layers.
pub fn check(
    alloc: Global,
    file: &File,
    tables: &[NamedTable],
    linears: &[NamedLinear],
) -> Result<Checked, ElabFault>
    requires ids { All HasIds file.now.models.items }
    requires is_file { IsFile (file_of file.now) }
    requires tables { IsTrue (are_distinct (map (λ (t : ReadTable). t.name) tables.now)) }
    requires linears { IsTrue (are_distinct (map (λ (l : ReadLinear). l.name) linears.now)) }
    ensures sound { OnOk result (IsSound (file_of file.now) (library_of tables.now linears.now)) }
    ensures checked { IfOk result (IsChecked (file_of file.now) (library_of tables.now linears.now)) }
    ensures refused { IfErr result (λ fault. IfSome (fault_of fault) (IsRefusedWith (file_of file.now) (library_of tables.now linears.now))) }
    // A file is exactly one of sound and refused: the answer says which, unless it is want of memory.
    ensures decided { MatchResult result
        (λ c. IsSound (file_of file.now) (library_of tables.now linears.now) × HasNoRefusal (file_of file.now) (library_of tables.now linears.now))
        (λ fault. IfSome (fault_of fault) (IsOnlyRefusal (file_of file.now) (library_of tables.now linears.now))) }
    // Where memory suffices, a sound file isn't refused, and one that is refused is told its refusal.
    ensures accepted { IsSound (file_of file.now) (library_of tables.now linears.now) → IsOkUnless result ElabFault.NoMemory }
    ensures told { (fault : SoundFault) → IsRefusedWith (file_of file.now) (library_of tables.now linears.now) fault
        → MatchResult result (λ c. ⊥) (λ other. IfSome (fault_of other) (λ told. told ≡ fault)) }
{
    files_are_not_both_and_refused_once();
    let ports = port_marks(alloc, &file.models)?;
    let source = Source {
        file,
        tables,
        linears,
        ports: &ports,
    };
    check_source(alloc, &source)
}

fn check_source(alloc: Global, source: &Source) -> Result<Checked, ElabFault>
    requires source { IsSource source.now }
    requires is_file { IsFile (source_file source.now) }
    requires tables { IsTrue (are_distinct (map (λ (t : ReadTable). t.name) source.now.tables.now)) }
    requires linears { IsTrue (are_distinct (map (λ (l : ReadLinear). l.name) source.now.linears.now)) }
    ensures sound { OnOk result (IsSound (source_file source.now) (source_library source.now)) }
    ensures checked { IfOk result (IsChecked (source_file source.now) (source_library source.now)) }
    ensures refused { IfErr result (λ fault. IfSome (fault_of fault) (IsRefusedWith (source_file source.now) (source_library source.now))) }
{
    passed_files_are_sound();
    let survey = survey(alloc, source.file, source.tables, source.linears)?;
    let used = used_models(alloc, source, &survey)?;
    let order = check_models(alloc, source, &survey, &used)?;
    check_clocking(alloc, source, &survey)?;
    let orders = check_loops(alloc, source, &survey, &used)?;
    check_reserved(alloc, source, &survey)?;
    let costs = check_limits(alloc, source, &survey, &order)?;
    Ok(Checked {
        survey,
        used,
        orders,
        costs,
    })
}

// The tests before that of clocks, which ask for the used models. Answers an order of these in which a model stands behind
// those that it places.
fn check_models(
    alloc: Global,
    source: &Source,
    survey: &Survey,
    used: &[bool],
) -> Result<Vec<usize>, ElabFault>
    requires { HasUsedMarks source.now survey.now used.now }
    ensures passes { OnOk result (PassesBelow (source_file source.now) (source_library source.now) 8) }
    ensures order { IfOk result (λ order. IsPlacedFirst (source_file source.now) order.items) }
    ensures refused { IfErr result (λ fault. IfSome (fault_of fault) (IsRefusedWith (source_file source.now) (source_library source.now))) }
{
    check_drivers(alloc, source, survey, used)?;
    check_names(alloc, source, survey, used)?;
    check_ports(alloc, source, survey, used)?;
    let order = check_recursion(alloc, source, survey, used)?;
    check_latches(alloc, source, survey, used)?;
    check_depth(alloc, source, survey, used)?;
    check_reads(alloc, source, survey, used)?;
    Ok(order)
}
