// The cells that have names of their own, and the inner cells between them.
ghost use Rattle.std.specs.Prelude.{◌≡◌, ◌++◌, length, map, IfOk, OnOk};
ghost use Rattle.gate_net.specs.Gate.{net_number};
ghost use Rattle.gate_net.specs.declared.machine.LatchRow.{LatchRow as Latch};
ghost use Rattle.named_netlist.specs.declared.label.Label.TheVariants.{Inner};
ghost use Rattle.guard_names.specs.Labels.{IsRising, beside_gates, between, shown_labels};

use crate::labels::{push_checks, push_given, push_inner, push_rails};
use gate_net::{LatchRow, NetId};
use imp_text::NameId;
use named_netlist::Label;
use std::alloc::{AllocError, Global};

/// The nets that latches store.
pub(crate) fn stored_nets(alloc: Global, latches: &[LatchRow]) -> Result<Vec<NetId>, AllocError>
    ensures { IfOk result (λ nets. nets.items ≡ map (λ (l : Latch). l.d) latches.now) }
{
    latches.iter().map(|l| l.d).collect(alloc)
}

/// The labels of all outputs: of the source's, of the check bits of so many output words, and of the rails.
pub(crate) fn output_labels(
    alloc: Global,
    names: &[NameId],
    words: u32,
    columns: u32,
    rails: u32,
) -> Result<Vec<Label>, AllocError>
    ensures { IfOk result (λ labels. labels.items ≡ shown_labels names.now columns words rails) }
{
    let mut labels = Vec::new(alloc);
    push_given(&mut labels, names)?;
    push_checks(&mut labels, words, columns)?;
    push_rails(&mut labels, rails)?;
    Ok(labels)
}

/// Of the outputs those that are gates, with their labels.
pub(crate) fn push_gates(
    nets: &mut Vec<NetId>,
    labels: &mut Vec<Label>,
    outputs: &[NetId],
    shown: &[Label],
    leaves: u32,
) -> Result<(), AllocError>
    requires { length shown.now ≡ length outputs.now }
    ensures nets { OnOk result
        (map net_number nets.new.items ≡ map net_number nets.old.items ++ beside_gates leaves (map net_number outputs.now) (map net_number outputs.now)) }
    ensures labels { OnOk result
        (labels.new.items ≡ labels.old.items ++ beside_gates leaves shown.now (map net_number outputs.now)) }
{
    for (i, n) in outputs.iter().enumerate() {
        if leaves <= n.0 {
            nets.push(*n)?;
            labels.push(shown[i])?;
        }
    }
    Ok(())
}

/// The labels of gates from the next one on, up to the last of these nets: inner cells are numbered in order, and each of
/// the nets has its own label.
pub(crate) fn push_between(
    labels: &mut Vec<Label>,
    nets: &[NetId],
    own: &[Label],
) -> Result<(), AllocError>
    requires each { length own.now ≡ length nets.now }
    requires rising { IsRising (length labels.old.items) (map net_number nets.now) }
    ensures { OnOk result (labels.new.items
        ≡ labels.old.items ++ between (λ i. Inner i) (length labels.old.items) 0 (map net_number nets.now) own.now) }
{
    let mut inner = 0;
    for (i, n) in nets.iter().enumerate() {
        let count = n.0 - labels.len() as u32;
        push_inner(labels, inner, count)?;
        inner += count;
        labels.push(own[i])?;
    }
    Ok(())
}
