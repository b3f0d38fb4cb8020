// The names of a flat netlist.
ghost use Rattle.std.specs.Prelude.{◌≡◌, ◌++◌, length, map, IfOk, OnOk};
ghost use Rattle.std.specs.List.{range_with_len};
ghost use Rattle.netlist_spec.specs.Written.{IsNamed};
ghost use Rattle.gate_net.specs.Gate.{net_number};
ghost use Rattle.named_netlist.specs.declared.label.Label.TheVariants.{Given, Inner};
ghost use Rattle.elaborated.specs.Flat.{AreFlatNets, IsFlatNamed, at_gates};
ghost use Rattle.elaborated.specs.Labels.{labels_of};

use crate::{Elaborated, FlatNets};
use gate_net::{Machine, NetId};
use imp_text::NameId;
use named_netlist::{Label, Named};
use std::alloc::{AllocError, Global};

/// The flat netlist of a source, from the nets that `flat` answered for it. Latches and outputs have their names, and the
/// other cells are numbered in order.
pub fn name_flat(alloc: Global, e: Elaborated, nets: FlatNets) -> Result<Named, AllocError>
    requires { AreFlatNets e.machine.net e.machine.outputs nets.net (map net_number nets.outputs.items) }
    ensures flat { IfOk result (λ g. IsFlatNamed e g) }
    ensures is_named { IfOk result (λ g. IsNamed g) }
{
    let Elaborated {
        machine,
        model,
        names,
        input_ports,
        clock_ports,
        data_names,
        output_names,
        latch_names,
        clocking,
        unknown_inits,
    } = e;
    let labels = labels(alloc, &data_names, &latch_names, &machine, &output_names)?;
    let Machine {
        net: _,
        inputs,
        latches,
        outputs: _,
    } = machine;
    let FlatNets { net, outputs } = nets;
    Ok(Named {
        model,
        names,
        unknown_inits,
        inputs: input_ports,
        clocks: clock_ports,
        outputs,
        clocking,
        net,
        labels,
        latches,
        data_inputs: inputs,
    })
}

// The labels of data inputs and latches, of the machine's gates, and of the outputs that have a cell.
fn labels(
    alloc: Global,
    data_names: &[NameId],
    latch_names: &[NameId],
    machine: &Machine,
    output_names: &[NameId],
) -> Result<Vec<Label>, AllocError>
    requires { length output_names.now ≡ length machine.now.outputs }
    ensures { IfOk result
        (λ labels. labels.items ≡ labels_of data_names.now latch_names.now machine.now output_names.now) }
{
    let mut labels = Vec::new(alloc);
    push_given(&mut labels, data_names)?;
    push_given(&mut labels, latch_names)?;
    push_inner(&mut labels, machine.net.len() - machine.net.leaves())?;
    push_outputs(
        &mut labels,
        output_names,
        &machine.outputs,
        machine.net.leaves(),
    )?;
    Ok(labels)
}

fn push_given(labels: &mut Vec<Label>, names: &[NameId]) -> Result<(), AllocError>
    ensures { OnOk result (labels.new.items ≡ labels.old.items ++ map (λ n. Given n) names.now) }
{
    for n in names {
        labels.push(Label::Given(*n))?;
    }
    Ok(())
}

fn push_inner(labels: &mut Vec<Label>, count: u32) -> Result<(), AllocError>
    ensures { OnOk result (labels.new.items ≡ labels.old.items ++ map (λ i. Inner i) (range_with_len 0 count)) }
{
    for i in 0..count {
        labels.push(Label::Inner(i))?;
    }
    Ok(())
}

// The names of the outputs that are no leaves.
fn push_outputs(
    labels: &mut Vec<Label>,
    names: &[NameId],
    nets: &[NetId],
    leaves: u32,
) -> Result<(), AllocError>
    requires { length nets.now ≡ length names.now }
    ensures { OnOk result
        (labels.new.items ≡ labels.old.items ++ map (λ n. Given n) (at_gates leaves names.now (map net_number nets.now))) }
{
    for (i, name) in names.iter().enumerate() {
        if leaves <= nets[i].0 {
            labels.push(Label::Given(*name))?;
        }
    }
    Ok(())
}
