// Cells of bits that show a net, or a check bit of some nets.
ghost use Rattle.std.specs.Prelude.{◌≡◌, ℕ, ◌+◌, ◌^◌, ◌<◌, ◌≤◌, [], ◌∷◌, ◌++◌, Bool, List, Some, length, map, slice_get, sum, OnOk};
ghost use Rattle.std.specs.List.{AllByRecursion, AllZip, zip};
ghost use Rattle.netlist_spec.specs.CellBits.{Bit};
ghost use Rattle.netlist_spec.specs.Cones.{GateConeCost};
ghost use Rattle.guard_spec.specs.Codes.{Code as SpecCode, checks_of, data_places};
ghost use Rattle.guard_spec.specs.Plain.{column_cost};
ghost use Rattle.guard_spec.specs.Words.{Layout};
ghost use Rattle.gate_net.specs.Gate.{net_number};
ghost use Rattle.gate_net.specs.GateNet.{net_count};
ghost use Rattle.cone_split.specs.Ranges.{KeepsGates};
ghost use Rattle.guard_laws.specs.Rows.{IsRangeOf, right_bit};
ghost use Rattle.guard_cells.specs.Cells.{AreCells, GivesCosts, bit_costs, checks_cost};

use crate::{Sketch, rows_of_cells_join};
use block_code::Code;
use cone_split::{cones_have_one_size, copy_xor};
use gate_net::{Machine, NetId};
use guard_laws::copies_are_ranges;
use predictor::{check_bit, check_bits_cost_no_more};
use std::alloc::{AllocError, Global};

/// Appends a copy of the cone of each root, a net of the machine, with the nets of `leaf` in the place of the machine's
/// leaves. After want of memory the sketch may have some gates and cells more.
pub fn add_copies(
    alloc: Global,
    m: &Machine,
    roots: &[NetId],
    leaf: &[NetId],
    s: &mut Sketch,
) -> Result<(), AllocError>
    requires roots { AllByRecursion (λ n. n < net_count m.now.net) (map net_number roots.now) }
    requires leaves { length leaf.now ≡ m.now.net.leaves }
    requires leaf { AllByRecursion (λ n. n < net_count s.old.net) (map net_number leaf.now) }
    requires room { (cost : ℕ → ℕ) × GivesCosts m.now cost
        × (net_count s.old.net + sum (bit_costs cost (map net_number roots.now)) ≤ 2 ^ 23) }
    ensures kept { KeepsGates s.old.net s.new.net }
    // Each bit whose right value is that of its root has such a range.
    ensures cells { OnOk result ((nets : List ℕ) × (length nets ≡ length roots.now)
        × (map net_number s.new.cells.items ≡ map net_number s.old.cells.items ++ nets)
        × ((c : SpecCode) (l : Layout) (bits : List Bit)
        → AllZip (λ bit root. (u : ℕ → Bool) → right_bit m.now c l u bit ≡ Some (u root)) bits (map net_number roots.now)
        → AreCells (λ net r. IsRangeOf net (map net_number leaf.now) m.now c l r) (net_count s.old.net) (zip bits nets) s.new.net)) }
    ensures few { OnOk result ((cost : ℕ → ℕ) → GivesCosts m.now cost
        → net_count s.new.net ≤ net_count s.old.net + sum (bit_costs cost (map net_number roots.now))) }
{
    rows_of_cells_join();
    for root in roots {
        add_copy(alloc, m, *root, leaf, s)?;
    }
    Ok(())
}

// Appends a copy of the cone of one root.
fn add_copy(
    alloc: Global,
    m: &Machine,
    root: NetId,
    leaf: &[NetId],
    s: &mut Sketch,
) -> Result<(), AllocError>
    requires root { root.0 < net_count m.now.net }
    requires leaves { length leaf.now ≡ m.now.net.leaves }
    requires leaf { AllByRecursion (λ n. n < net_count s.old.net) (map net_number leaf.now) }
    requires room { (cost : ℕ) × GateConeCost m.now root.0 cost × (net_count s.old.net + (2 + cost) ≤ 2 ^ 23) }
    ensures kept { KeepsGates s.old.net s.new.net }
    ensures cell { OnOk result ((n : ℕ) × (map net_number s.new.cells.items ≡ map net_number s.old.cells.items ++ n ∷ [])
        × ((c : SpecCode) (l : Layout) (bit : Bit)
        → ((u : ℕ → Bool) → right_bit m.now c l u bit ≡ Some (u root.0))
        → AreCells (λ net r. IsRangeOf net (map net_number leaf.now) m.now c l r) (net_count s.old.net) ((bit, n) ∷ []) s.new.net)) }
    ensures few { OnOk result ((cost : ℕ) → GateConeCost m.now root.0 cost
        → net_count s.new.net ≤ net_count s.old.net + (2 + cost)) }
{
    copies_are_ranges();
    cones_have_one_size();
    let cell = copy_xor(alloc, &m.net, &[root], leaf, &mut s.net)?;
    s.cells.push(cell)?;
    Ok(())
}

/// Appends each check bit of the word of the roots as a copy of their cones, in the same way.
pub fn add_checks(
    alloc: Global,
    m: &Machine,
    roots: &[NetId],
    leaf: &[NetId],
    code: &Code,
    s: &mut Sketch,
) -> Result<(), AllocError>
    requires roots { AllByRecursion (λ n. n < net_count m.now.net) (map net_number roots.now) }
    requires some_place { 1 ≤ length roots.now }
    requires places { length roots.now ≤ data_places code.now }
    requires leaves { length leaf.now ≡ m.now.net.leaves }
    requires leaf { AllByRecursion (λ n. n < net_count s.old.net) (map net_number leaf.now) }
    requires room { (cost : ℕ → ℕ) × GivesCosts m.now cost
        × (net_count s.old.net + checks_cost cost code.now (map net_number roots.now) ≤ 2 ^ 23) }
    ensures kept { KeepsGates s.old.net s.new.net }
    // Bits whose right values are the word's check bits have such ranges.
    ensures cells { OnOk result ((nets : List ℕ) × (length nets ≡ code.now.columns)
        × (map net_number s.new.cells.items ≡ map net_number s.old.cells.items ++ nets)
        × ((l : Layout) (bits : List Bit) → length bits ≡ code.now.columns
        → ((j : ℕ) (bit : Bit) → slice_get bits j ≡ Some bit → (u : ℕ → Bool)
        → right_bit m.now code.now l u bit ≡ slice_get (checks_of code.now (map u (map net_number roots.now))) j)
        → AreCells (λ net r. IsRangeOf net (map net_number leaf.now) m.now code.now l r) (net_count s.old.net) (zip bits nets) s.new.net)) }
    ensures few { OnOk result ((cost : ℕ → ℕ) → GivesCosts m.now cost
        → net_count s.new.net ≤ net_count s.old.net + checks_cost cost code.now (map net_number roots.now)) }
{
    rows_of_cells_join();
    for j in 0..code.r() {
        add_check(alloc, m, roots, leaf, code, j, s)?;
    }
    Ok(())
}

// Appends check bit j of the word of the roots.
fn add_check(
    alloc: Global,
    m: &Machine,
    roots: &[NetId],
    leaf: &[NetId],
    code: &Code,
    j: u8,
    s: &mut Sketch,
) -> Result<(), AllocError>
    requires roots { AllByRecursion (λ n. n < net_count m.now.net) (map net_number roots.now) }
    requires some_place { 1 ≤ length roots.now }
    requires places { length roots.now ≤ data_places code.now }
    requires column { j < code.now.columns }
    requires leaves { length leaf.now ≡ m.now.net.leaves }
    requires leaf { AllByRecursion (λ n. n < net_count s.old.net) (map net_number leaf.now) }
    requires room { (cost : ℕ → ℕ) × GivesCosts m.now cost
        × (net_count s.old.net + column_cost code.now (bit_costs cost (map net_number roots.now)) j ≤ 2 ^ 23) }
    ensures kept { KeepsGates s.old.net s.new.net }
    ensures cell { OnOk result ((n : ℕ) × (map net_number s.new.cells.items ≡ map net_number s.old.cells.items ++ n ∷ [])
        × ((l : Layout) (bit : Bit)
        → ((u : ℕ → Bool) → right_bit m.now code.now l u bit ≡ slice_get (checks_of code.now (map u (map net_number roots.now))) j)
        → AreCells (λ net r. IsRangeOf net (map net_number leaf.now) m.now code.now l r) (net_count s.old.net) ((bit, n) ∷ []) s.new.net)) }
    ensures few { OnOk result ((cost : ℕ → ℕ) → GivesCosts m.now cost
        → net_count s.new.net ≤ net_count s.old.net + column_cost code.now (bit_costs cost (map net_number roots.now)) j) }
{
    copies_are_ranges();
    check_bits_cost_no_more();
    let cell = check_bit(alloc, &m.net, roots, leaf, code, j, &mut s.net)?;
    s.cells.push(cell)?;
    Ok(())
}
