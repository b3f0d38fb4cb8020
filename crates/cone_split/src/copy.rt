// A cone copied into a range of its own.
ghost use Rattle.std.specs.Prelude.{◌≡◌, ℕ, ◌+◌, ◌^◌, ◌<◌, ◌≤◌, ◌++◌, List, length, map, OnOk, OnErr, IfOk};
ghost use Rattle.std.specs.List.{AllByRecursion, AllZip, range_with_len};
ghost use Rattle.netlist_spec.specs.Gates.{GateForm, IsGateList, gate_reads};
ghost use Rattle.gate_net.specs.Gate.{gate_form, net_number};
ghost use Rattle.gate_net.specs.GateNet.{net_count};
ghost use Rattle.cone_split.specs.Cones.{HasRoom, IsConeSize, xor_count};
ghost use Rattle.cone_split.specs.Copies.{AreClosed, AreConeOf, AreCopied, HasImage, IsImage, IsSameOver, Rises};
ghost use Rattle.cone_split.specs.Ranges.{IsCopy, KeepsGates};
ghost use Rattle.cone_split.specs.Whole.{IsCopyOfAll};

use crate::cone::gates_of;
use crate::sum::append_sum;
use gate_net::{Gate, GateNet, NetId};
use std::alloc::{AllocError, Global};

/// Appends the xor of the roots' values as a copy of their cone: `leaf` has the net that stands for each leaf of `src`.
/// Answers the last gate of the copy, which is new. After want of memory `dst` may have some gates more. The work grows
/// with the cone and the roots, times a logarithm of the cone, and not with the rest of `src` or with `dst`.
pub fn copy_xor(
    alloc: Global,
    src: &GateNet,
    roots: &[NetId],
    leaf: &[NetId],
    dst: &mut GateNet,
) -> Result<NetId, AllocError>
    requires roots { AllByRecursion (λ n. n < net_count src.now) (map net_number roots.now) }
    requires leaves { length leaf.now ≡ src.now.leaves }
    requires leaf { AllByRecursion (λ n. n < net_count dst.old) (map net_number leaf.now) }
    requires room { HasRoom src.now (map net_number roots.now) dst.old }
    ensures kept { KeepsGates dst.old dst.new }
    ensures copy { IfOk result
        (λ n. IsCopy src.now (map net_number roots.now) (map net_number leaf.now) dst.old dst.new n.0) }
    ensures count { OnOk result ((size : ℕ) → IsConeSize src.now (map net_number roots.now) size
        → net_count dst.new ≡ net_count dst.old + size + xor_count src.now (map net_number roots.now)) }
{
    let cells = gates_of(alloc, src, roots)?;
    let first = dst.len();
    append_cells(src, &cells, leaf, dst)?;
    if roots.len() == 1 && !cells.is_empty() {
        // The root is a gate, and greater than all others of its cone.
        return Ok(NetId(dst.len() - 1));
    }
    let nets = images(alloc, roots, leaf, &cells, first)?;
    append_sum(&nets, dst)
}

/// Appends a copy of all gates: `leaf` has the net that stands for each leaf of `src`. The gates of `src` have the new
/// nets in their order. After want of memory `dst` may have some gates more.
pub fn copy_all(
    alloc: Global,
    src: &GateNet,
    leaf: &[NetId],
    dst: &mut GateNet,
) -> Result<(), AllocError>
    requires leaves { length leaf.now ≡ src.now.leaves }
    requires leaf { AllByRecursion (λ n. n < net_count dst.old) (map net_number leaf.now) }
    requires room { net_count dst.old + length src.now.gates ≤ 2 ^ 23 }
    ensures kept { KeepsGates dst.old dst.new }
    ensures copy { OnOk result (IsCopyOfAll src.now (map net_number leaf.now) (net_count dst.old) dst.new) }
{
    let cells = all_gates(alloc, src)?;
    append_cells(src, &cells, leaf, dst)
}

/// The numbers of all gates.
fn all_gates(alloc: Global, src: &GateNet) -> Result<Vec<u32>, AllocError>
    ensures well_formed { IsGateList src.now }
    ensures cells { IfOk result (λ cells. cells.items ≡ range_with_len src.now.leaves (length src.now.gates)) }
{
    let mut cells = Vec::new(alloc);
    for n in src.leaves()..src.len() {
        cells.push(n)?;
    }
    Ok(cells)
}

/// Appends a copy of each cell.
fn append_cells(
    src: &GateNet,
    cells: &[u32],
    leaf: &[NetId],
    dst: &mut GateNet,
) -> Result<(), AllocError>
    requires gates { IsGateList src.now }
    requires cells { AreClosed src.now cells.now }
    requires leaves { length leaf.now ≡ src.now.leaves }
    requires leaf { AllByRecursion (λ n. n < net_count dst.old) (map net_number leaf.now) }
    requires room { net_count dst.old + length cells.now ≤ 2 ^ 23 }
    ensures kept { KeepsGates dst.old dst.new }
    ensures copied { OnOk result ((hs : List GateForm)
        × (dst.new ≡ record dst.old { gates = dst.old.gates ++ hs })
        × AreCopied src.now (map net_number leaf.now) cells.now (net_count dst.old) cells.now hs) }
{
    let first = dst.len();
    for n in cells {
        let gate = copied(src.gate(NetId(*n)), leaf, cells, first);
        dst.push(gate)?;
    }
    Ok(())
}

/// The gate over the nets that stand for those that it reads.
fn copied(gate: Gate, leaf: &[NetId], cells: &[u32], first: u32) -> Gate
    requires nets { AllByRecursion (HasImage (length leaf.now) cells.now)
        (gate_reads (gate_form gate)) }
    requires rise { Rises 0 cells.now }
    requires room { first + length cells.now ≤ 2 ^ 23 }
    ensures { IsSameOver (IsImage (map net_number leaf.now) cells.now first) (gate_form gate)
        (gate_form result) }
{
    match gate {
        Gate::Const(bit) => Gate::Const(bit),
        Gate::One { inv, a } => Gate::One {
            inv,
            a: image(a, leaf, cells, first),
        },
        Gate::Two { op, a, b } => Gate::Two {
            op,
            a: image(a, leaf, cells, first),
            b: image(b, leaf, cells, first),
        },
    }
}

/// The nets that stand for some nets.
fn images(
    alloc: Global,
    nets: &[NetId],
    leaf: &[NetId],
    cells: &[u32],
    first: u32,
) -> Result<Vec<NetId>, AllocError>
    requires nets { AllByRecursion (HasImage (length leaf.now) cells.now) (map net_number nets.now) }
    requires rise { Rises 0 cells.now }
    requires room { first + length cells.now ≤ 2 ^ 23 }
    ensures { IfOk result (λ v. AllZip (IsImage (map net_number leaf.now) cells.now first)
        (map net_number nets.now) (map net_number v.items)) }
{
    let mut found = Vec::new(alloc);
    for n in nets {
        found.push(image(*n, leaf, cells, first))?;
    }
    Ok(found)
}

/// The net that stands for a net: a leaf's is looked up, a cell's is found by a binary search among the cells.
fn image(n: NetId, leaf: &[NetId], cells: &[u32], first: u32) -> NetId
    requires net { HasImage (length leaf.now) cells.now n.0 }
    requires rise { Rises 0 cells.now }
    requires room { first + length cells.now ≤ 2 ^ 23 }
    ensures { IsImage (map net_number leaf.now) cells.now first n.0 result.0 }
{
    if (n.0 as usize) < leaf.len() {
        return leaf[n.0 as usize];
    }
    let place = cells.binary_search(&n.0).unwrap();
    NetId(first + place as u32)
}
