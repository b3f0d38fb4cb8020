// The first line at fault of a file.
ghost use Rattle.std.specs.Prelude.{◌≡◌, [], None, All, OnOk, IfErr};
ghost use Rattle.netlist_spec.specs.FileRules.{IsFile};
ghost use Rattle.blif_read.specs.Ids.{HasIds};
ghost use Rattle.blif_read.specs.View.{file_of, model_of};
ghost use Rattle.netlist_spec.specs.FileOrder.{first_answer, items_of};
ghost use Rattle.netlist_spec.specs.Ordered.{IsOrdered, item_fault, order_fault};
ghost use Rattle.line_order.specs.Faults.{IsFault, fault_of};
ghost use Rattle.line_order.specs.Merge.{AreByLine};

use crate::OrderFault;
use crate::merge::{Passed, next_place};
use crate::tables::Tables;
use blif_read::{File, Model};
use std::alloc::Global;

/// Tests whether a file is in order: it has one model without `.subckt`, no net is driven twice, each `.names` reads data inputs,
/// latches and earlier `.names` alone, each output and each D has a source, and all latches are clocked alike, by a control that
/// is `NIL` or declared. Where it is not, the first line at fault is answered.
pub fn check_order(alloc: Global, file: &File) -> Result<(), OrderFault>
    requires ids { All HasIds file.now.models.items }
    requires is_file { IsFile (file_of file.now) }
    ensures ok { OnOk result (order_fault (file_of file.now) ≡ None) }
    ensures ordered { OnOk result (IsOrdered (file_of file.now)) }
    ensures fault { IfErr result (λ fault. IsFault (order_fault (file_of file.now)) (fault_of fault)) }
{
    check_lines(alloc, &file.models[0])?;
    match file.models.get(1) {
        Some(second) => Err(OrderFault::Unordered(second.line)),
        None => Ok(()),
    }
}

// The first line at fault of a model.
fn check_lines(alloc: Global, m: &Model) -> Result<(), OrderFault>
    requires ids { HasIds m.now }
    requires by_line { AreByLine (model_of m.now) }
    ensures ok { OnOk result (first_answer (item_fault (model_of m.now)) [] (items_of (model_of m.now)) ≡ None) }
    ensures fault { IfErr result (λ fault. IsFault (first_answer (item_fault (model_of m.now)) [] (items_of (model_of m.now))) (fault_of fault)) }
{
    let mut tables = Tables::new(alloc, m)?;
    let mut passed = Passed {
        inputs: 0,
        outputs: 0,
        clocks: 0,
        statements: 0,
    };
    while let Some(place) = next_place(m, &mut passed) {
        if let Some(fault) = tables.fault_at(m, place) {
            return Err(fault);
        }
        tables.pass(m, place);
    }
    Ok(())
}
