// Cells of the places of state words, and of the check bits of output words.
ghost use Rattle.std.specs.Prelude.{◌≡◌, ℕ, ◌+◌, ◌^◌, ◌<◌, ◌≤◌, length, map, All, OnOk};
ghost use Rattle.std.specs.List.{AllByRecursion};
ghost use Rattle.netlist_spec.specs.Gates.{IsMachine};
ghost use Rattle.guard_spec.specs.Codes.{data_places};
ghost use Rattle.guard_spec.specs.Plain.{word_cost};
ghost use Rattle.guard_spec.specs.Words.{IsPartition};
ghost use Rattle.encode_state.specs.Types.{words_in};
ghost use Rattle.gate_net.specs.Gate.{net_number};
ghost use Rattle.gate_net.specs.GateNet.{net_count};
ghost use Rattle.guard_cells.specs.Cells.{GivesCosts, bit_costs, checks_cost, nets_at, words_cost};
ghost use Rattle.guard_net.specs.Built.{GainsCheck, GainsChecks, GainsWord, GainsWords, all_checks_cost, stores_of};

use arrayvec::ArrayVec;
use block_code::Code;
use gate_net::{Machine, NetId};
use guard_cells::{Sketch, add_checks, add_copies, rows_of_cells_join};
use guard_laws::words_have_places;
use std::alloc::{AllocError, Global};

/// The nets at the numbers of a word.
pub(crate) fn word_roots(nets: &[NetId], word: &[u32]) -> ArrayVec<NetId, 12>
    requires short { length word.now ≤ 12 }
    requires within { All (λ i. i < length nets.now) word.now }
    ensures { map net_number result.items ≡ nets_at (map net_number nets.now) word.now }
{
    let mut roots = ArrayVec::new();
    for i in word {
        roots.push(nets[*i as usize]);
    }
    roots
}

// Appends the places of one state word: copies of what its latches store, and its check bits.
fn add_state_word(
    alloc: Global,
    m: &Machine,
    stores: &[NetId],
    word: &[u32],
    leaf: &[NetId],
    code: &Code,
    s: &mut Sketch,
) -> Result<(), AllocError>
    requires machine { IsMachine m.now }
    requires stores { map net_number stores.now ≡ stores_of m.now }
    requires places { (1 ≤ length word.now) × (length word.now ≤ data_places code.now) }
    requires within { All (λ i. i < length m.now.latches) word.now }
    requires leaves { length leaf.now ≡ m.now.net.leaves }
    requires leaf { AllByRecursion (λ n. n < net_count s.old.net) (map net_number leaf.now) }
    requires room { (cost : ℕ → ℕ) × GivesCosts m.now cost
        × (net_count s.old.net + word_cost code.now (bit_costs cost (nets_at (stores_of m.now) word.now)) ≤ 2 ^ 23) }
    ensures { OnOk result (GainsWord m.now code.now word.now (map net_number leaf.now) s.old.net s.new.net
        (map net_number s.old.cells.items) (map net_number s.new.cells.items)) }
{
    words_have_places();
    rows_of_cells_join();
    let _columns = code.r();
    let found = word_roots(stores, word);
    let roots = found.as_slice();
    add_copies(alloc, m, roots, leaf, s)?;
    add_checks(alloc, m, roots, leaf, code, s)?;
    Ok(())
}

/// Appends the places of all state words, by word and then by place.
pub(crate) fn add_state(
    alloc: Global,
    m: &Machine,
    stores: &[NetId],
    words: &[Vec<u32>],
    leaf: &[NetId],
    code: &Code,
    s: &mut Sketch,
) -> Result<(), AllocError>
    requires machine { IsMachine m.now }
    requires stores { map net_number stores.now ≡ stores_of m.now }
    requires words { IsPartition (length m.now.latches) (data_places code.now) (words_in words.now) }
    requires leaves { length leaf.now ≡ m.now.net.leaves }
    requires leaf { AllByRecursion (λ n. n < net_count s.old.net) (map net_number leaf.now) }
    requires room { (cost : ℕ → ℕ) × GivesCosts m.now cost
        × (net_count s.old.net + words_cost cost code.now (stores_of m.now) (words_in words.now) ≤ 2 ^ 23) }
    ensures { OnOk result (GainsWords m.now code.now (words_in words.now) (map net_number leaf.now) s.old.net s.new.net
        (map net_number s.old.cells.items) (map net_number s.new.cells.items)) }
{
    rows_of_cells_join();
    for word in words {
        add_state_word(alloc, m, stores, word, leaf, code, s)?;
    }
    Ok(())
}

// Appends the check bits of one output word.
fn add_word_checks(
    alloc: Global,
    m: &Machine,
    word: &[u32],
    leaf: &[NetId],
    code: &Code,
    s: &mut Sketch,
) -> Result<(), AllocError>
    requires machine { IsMachine m.now }
    requires places { (1 ≤ length word.now) × (length word.now ≤ data_places code.now) }
    requires within { All (λ i. i < length m.now.outputs) word.now }
    requires leaves { length leaf.now ≡ m.now.net.leaves }
    requires leaf { AllByRecursion (λ n. n < net_count s.old.net) (map net_number leaf.now) }
    requires room { (cost : ℕ → ℕ) × GivesCosts m.now cost
        × (net_count s.old.net + checks_cost cost code.now (nets_at m.now.outputs word.now) ≤ 2 ^ 23) }
    ensures { OnOk result (GainsCheck m.now code.now word.now (map net_number leaf.now) s.old.net s.new.net
        (map net_number s.old.cells.items) (map net_number s.new.cells.items)) }
{
    words_have_places();
    let _columns = code.r();
    let found = word_roots(&m.outputs, word);
    let roots = found.as_slice();
    add_checks(alloc, m, roots, leaf, code, s)?;
    Ok(())
}

/// Appends the check bits of all output words, by word and then by column.
pub(crate) fn add_output_checks(
    alloc: Global,
    m: &Machine,
    words: &[Vec<u32>],
    leaf: &[NetId],
    code: &Code,
    s: &mut Sketch,
) -> Result<(), AllocError>
    requires machine { IsMachine m.now }
    requires words { IsPartition (length m.now.outputs) (data_places code.now) (words_in words.now) }
    requires leaves { length leaf.now ≡ m.now.net.leaves }
    requires leaf { AllByRecursion (λ n. n < net_count s.old.net) (map net_number leaf.now) }
    requires room { (cost : ℕ → ℕ) × GivesCosts m.now cost
        × (net_count s.old.net + all_checks_cost cost code.now m.now.outputs (words_in words.now) ≤ 2 ^ 23) }
    ensures { OnOk result (GainsChecks m.now code.now (words_in words.now) (map net_number leaf.now) s.old.net s.new.net
        (map net_number s.old.cells.items) (map net_number s.new.cells.items)) }
{
    rows_of_cells_join();
    for word in words {
        add_word_checks(alloc, m, word, leaf, code, s)?;
    }
    Ok(())
}
