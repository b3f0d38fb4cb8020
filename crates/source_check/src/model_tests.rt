// The tests of the used models. Each asks for what the earlier ones found, and a file passes it or is refused.
ghost use Rattle.std.specs.Prelude.{◌≡◌, map, IfErr, IfOk, IfSome, OnOk};
ghost use Rattle.netlist_spec.specs.SoundFaults.{IsRefusedWith};
ghost use Rattle.source_nets.specs.Ports.{source_file, source_library};
ghost use Rattle.source_models.specs.Order.{IsPlacedFirst};
ghost use Rattle.source_loops.specs.Orders.{AreOrders};
ghost use Rattle.source_check.specs.Faults.{fault_of};
ghost use Rattle.source_check.specs.Steps.{HasUsedMarks, PassesBelow};

use crate::ElabFault;
use source_laws::passed_files_are_sound;
use source_loops::{Settling, settle_models};
use source_models::{Recursion, first_latch_inside, first_too_deep, recursion};
use source_nets::{Source, Survey};
use source_placements::{first_bad_port, first_no_such_model};
use source_tests::{first_twice, first_undriven};
use std::alloc::Global;

// No net is driven twice.
pub(crate) fn check_drivers(
    alloc: Global,
    source: &Source,
    survey: &Survey,
    used: &[bool],
) -> Result<(), ElabFault>
    requires { HasUsedMarks source.now survey.now used.now }
    ensures passes { OnOk result (PassesBelow (source_file source.now) (source_library source.now) 2) }
    ensures refused { IfErr result (λ fault. IfSome (fault_of fault) (IsRefusedWith (source_file source.now) (source_library source.now))) }
{
    passed_files_are_sound();
    match first_twice(alloc, source, survey, used)? {
        Some(net) => Err(ElabFault::Twice(net)),
        None => Ok(()),
    }
}

// Each `.subckt` names something.
pub(crate) fn check_names(
    alloc: Global,
    source: &Source,
    survey: &Survey,
    used: &[bool],
) -> Result<(), ElabFault>
    requires known { HasUsedMarks source.now survey.now used.now }
    requires before { PassesBelow (source_file source.now) (source_library source.now) 2 }
    ensures passes { OnOk result (PassesBelow (source_file source.now) (source_library source.now) 3) }
    ensures refused { IfErr result (λ fault. IfSome (fault_of fault) (IsRefusedWith (source_file source.now) (source_library source.now))) }
{
    passed_files_are_sound();
    match first_no_such_model(alloc, source, survey, used)? {
        Some(name) => Err(ElabFault::NoSuchModel(name)),
        None => Ok(()),
    }
}

// The ports of each `.subckt` are those of what it places.
pub(crate) fn check_ports(
    alloc: Global,
    source: &Source,
    survey: &Survey,
    used: &[bool],
) -> Result<(), ElabFault>
    requires known { HasUsedMarks source.now survey.now used.now }
    requires before { PassesBelow (source_file source.now) (source_library source.now) 3 }
    ensures passes { OnOk result (PassesBelow (source_file source.now) (source_library source.now) 4) }
    ensures refused { IfErr result (λ fault. IfSome (fault_of fault) (IsRefusedWith (source_file source.now) (source_library source.now))) }
{
    passed_files_are_sound();
    match first_bad_port(alloc, source, survey, used)? {
        Some((model, formal)) => Err(ElabFault::BadPort(model, formal)),
        None => Ok(()),
    }
}

// No model contains itself. Answers the order of the used models in which a model stands behind those that it places.
pub(crate) fn check_recursion(
    alloc: Global,
    source: &Source,
    survey: &Survey,
    used: &[bool],
) -> Result<Vec<usize>, ElabFault>
    requires known { HasUsedMarks source.now survey.now used.now }
    requires before { PassesBelow (source_file source.now) (source_library source.now) 4 }
    ensures passes { OnOk result (PassesBelow (source_file source.now) (source_library source.now) 5) }
    ensures order { IfOk result (λ order. IsPlacedFirst (source_file source.now) order.items) }
    ensures refused { IfErr result (λ fault. IfSome (fault_of fault) (IsRefusedWith (source_file source.now) (source_library source.now))) }
{
    passed_files_are_sound();
    match recursion(alloc, source, survey, used)? {
        Recursion::Order(order) => Ok(order),
        Recursion::ContainsItself(model) => Err(ElabFault::Recursion(model)),
    }
}

// Only the main model has latches.
pub(crate) fn check_latches(
    alloc: Global,
    source: &Source,
    survey: &Survey,
    used: &[bool],
) -> Result<(), ElabFault>
    requires known { HasUsedMarks source.now survey.now used.now }
    requires before { PassesBelow (source_file source.now) (source_library source.now) 5 }
    ensures passes { OnOk result (PassesBelow (source_file source.now) (source_library source.now) 6) }
    ensures refused { IfErr result (λ fault. IfSome (fault_of fault) (IsRefusedWith (source_file source.now) (source_library source.now))) }
{
    passed_files_are_sound();
    match first_latch_inside(alloc, source, used)? {
        Some(model) => Err(ElabFault::LatchInside(model)),
        None => Ok(()),
    }
}

// No model stands too deep.
pub(crate) fn check_depth(
    alloc: Global,
    source: &Source,
    survey: &Survey,
    used: &[bool],
) -> Result<(), ElabFault>
    requires known { HasUsedMarks source.now survey.now used.now }
    requires before { PassesBelow (source_file source.now) (source_library source.now) 6 }
    ensures passes { OnOk result (PassesBelow (source_file source.now) (source_library source.now) 7) }
    ensures refused { IfErr result (λ fault. IfSome (fault_of fault) (IsRefusedWith (source_file source.now) (source_library source.now))) }
{
    passed_files_are_sound();
    match first_too_deep(alloc, source, survey, used)? {
        Some(model) => Err(ElabFault::Depth(model)),
        None => Ok(()),
    }
}

// Each net that is read is driven.
pub(crate) fn check_reads(
    alloc: Global,
    source: &Source,
    survey: &Survey,
    used: &[bool],
) -> Result<(), ElabFault>
    requires known { HasUsedMarks source.now survey.now used.now }
    requires before { PassesBelow (source_file source.now) (source_library source.now) 7 }
    ensures passes { OnOk result (PassesBelow (source_file source.now) (source_library source.now) 8) }
    ensures refused { IfErr result (λ fault. IfSome (fault_of fault) (IsRefusedWith (source_file source.now) (source_library source.now))) }
{
    passed_files_are_sound();
    match first_undriven(alloc, source, survey, used)? {
        Some(net) => Err(ElabFault::Undriven(net)),
        None => Ok(()),
    }
}

// All nets settle. Answers for each used model an order in which its statements do.
pub(crate) fn check_loops(
    alloc: Global,
    source: &Source,
    survey: &Survey,
    used: &[bool],
) -> Result<Vec<Vec<usize>>, ElabFault>
    requires known { HasUsedMarks source.now survey.now used.now }
    requires before { PassesBelow (source_file source.now) (source_library source.now) 9 }
    ensures passes { OnOk result (PassesBelow (source_file source.now) (source_library source.now) 10) }
    ensures orders { IfOk result (λ orders. AreOrders (source_file source.now) (source_library source.now) used.now (map (λ row. row.items) orders.items)) }
    ensures refused { IfErr result (λ fault. IfSome (fault_of fault) (IsRefusedWith (source_file source.now) (source_library source.now))) }
{
    passed_files_are_sound();
    match settle_models(alloc, source, survey, used)? {
        Settling::Orders(orders) => Ok(orders),
        Settling::Loop(nets) => Err(ElabFault::Loop(nets)),
    }
}
