// The tests of the main model alone.
ghost use Rattle.std.specs.Prelude.{◌≡◌, IfErr, IfOk, IfSome, OnOk};
ghost use Rattle.netlist_spec.specs.SoundFaults.{IsRefusedWith};
ghost use Rattle.blif_read.specs.View.{model_of};
ghost use Rattle.main_check.specs.Reserved.{IsReservedIn, reserved_told};
ghost use Rattle.source_nets.specs.Ports.{source_file, source_library};
ghost use Rattle.source_models.specs.Order.{IsPlacedFirst};
ghost use Rattle.source_check.specs.Checked.{AreCosts};
ghost use Rattle.source_check.specs.Faults.{fault_of};
ghost use Rattle.source_check.specs.Steps.{IsTestable, PassesBelow};

use crate::ElabFault;
use crate::main_model::{main_model, name_of};
use blif_read::{Model, Name};
use main_check::{Reserved, clocking_fault, reserved_name, too_large};
use source_cost::{main_costs, total_cost};
use source_laws::passed_files_are_sound;
use source_nets::{Source, Survey};
use source_tests::read_marks;
use std::alloc::{AllocError, Global};

// The latches are clocked alike, and no clock net is read.
pub(crate) fn check_clocking(
    alloc: Global,
    source: &Source,
    survey: &Survey,
) -> Result<(), ElabFault>
    requires known { IsTestable source.now survey.now }
    requires before { PassesBelow (source_file source.now) (source_library source.now) 8 }
    ensures passes { OnOk result (PassesBelow (source_file source.now) (source_library source.now) 9) }
    ensures refused { IfErr result (λ fault. IfSome (fault_of fault) (IsRefusedWith (source_file source.now) (source_library source.now))) }
{
    passed_files_are_sound();
    let (m, known) = main_model(source, survey);
    let read = read_marks(alloc, source, m, known)?;
    match clocking_fault(alloc, m, &read)? {
        Some(net) => Err(ElabFault::Clocking(name_of(alloc, &m.names, net)?)),
        None => Ok(()),
    }
}

// A netlist can be written with the names of the model, its ports and its latches.
pub(crate) fn check_reserved(
    alloc: Global,
    source: &Source,
    survey: &Survey,
) -> Result<(), ElabFault>
    requires known { IsTestable source.now survey.now }
    requires before { PassesBelow (source_file source.now) (source_library source.now) 10 }
    ensures passes { OnOk result (PassesBelow (source_file source.now) (source_library source.now) 11) }
    ensures refused { IfErr result (λ fault. IfSome (fault_of fault) (IsRefusedWith (source_file source.now) (source_library source.now))) }
{
    passed_files_are_sound();
    let (m, _) = main_model(source, survey);
    match reserved_name(m) {
        Some(what) => Err(ElabFault::Reserved(told_name(alloc, m, what)?)),
        None => Ok(()),
    }
}

// The model, the ports and the whole cost are within their limits. Answers the costs of the statements.
pub(crate) fn check_limits(
    alloc: Global,
    source: &Source,
    survey: &Survey,
    order: &[usize],
) -> Result<Vec<u32>, ElabFault>
    requires known { IsTestable source.now survey.now }
    requires order { IsPlacedFirst (source_file source.now) order.now }
    requires before { PassesBelow (source_file source.now) (source_library source.now) 11 }
    ensures passes { OnOk result (PassesBelow (source_file source.now) (source_library source.now) 12) }
    ensures costs { IfOk result (λ costs. AreCosts (source_file source.now) (source_library source.now) costs.items) }
    ensures refused { IfErr result (λ fault. IfSome (fault_of fault) (IsRefusedWith (source_file source.now) (source_library source.now))) }
{
    passed_files_are_sound();
    let (m, _) = main_model(source, survey);
    let costs = main_costs(alloc, source, survey, order)?;
    match too_large(alloc, m, total_cost(&costs))? {
        Some(what) => Err(ElabFault::TooLarge(what)),
        None => Ok(costs),
    }
}

// The name of the model, or that of a net.
fn told_name(alloc: Global, m: &Model, what: Reserved) -> Result<Name, AllocError>
    requires { IsReservedIn m.now.names what }
    ensures { IfOk result (λ name. name ≡ reserved_told (model_of m.now) what) }
{
    match what {
        Reserved::Model => Name::new(alloc, m.name.bytes()),
        Reserved::Net(net) => name_of(alloc, &m.names, net),
    }
}
