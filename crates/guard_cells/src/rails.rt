// Rails as cells.
ghost use Rattle.std.specs.Prelude.{◌≡◌, ℕ, ◌+◌, ◌*◌, ◌^◌, ◌<◌, ◌≤◌, [], ◌∷◌, ◌++◌, List, length, map, OnOk};
ghost use Rattle.std.specs.List.{AllByRecursion, flat_map, zip};
ghost use Rattle.netlist_spec.specs.CellBits.{Bit};
ghost use Rattle.gate_net.specs.Gate.{net_number};
ghost use Rattle.gate_net.specs.GateNet.{net_count};
ghost use Rattle.gate_net.specs.Words.{nets_of, word_nets};
ghost use Rattle.cone_split.specs.Ranges.{KeepsGates};
ghost use Rattle.alarm_rails.specs.Rail.{FitsCode, SomeIsNone, rail_cells};
ghost use Rattle.guard_laws.specs.Rows.{IsRailRange};
ghost use Rattle.guard_cells.specs.Cells.{AreCells};

use crate::{Sketch, rows_of_cells_join};
use alarm_rails::rail;
use block_code::Code;
use gate_net::WordNets;
use std::alloc::AllocError;

/// Appends so many rails over the words. After want of memory the sketch may have some gates and cells more.
pub fn add_rails(
    words: &[WordNets],
    code: &Code,
    count: u8,
    s: &mut Sketch,
) -> Result<(), AllocError>
    requires words { AllByRecursion (FitsCode code.now) (map word_nets words.now) }
    requires nets { AllByRecursion (λ n. n < net_count s.old.net)
        (flat_map nets_of (map word_nets words.now)) }
    requires room { net_count s.old.net + count * rail_cells code.now (map word_nets words.now) ≤ 2 ^ 23 }
    ensures kept { KeepsGates s.old.net s.new.net }
    ensures cells { OnOk result ((nets : List ℕ) × (length nets ≡ count)
        × (map net_number s.new.cells.items ≡ map net_number s.old.cells.items ++ nets)
        × ((bits : List Bit) → length bits ≡ count
        → AreCells (λ net r. IsRailRange net (flat_map nets_of (map word_nets words.now)) (SomeIsNone code.now (map word_nets words.now)) r)
        (net_count s.old.net) (zip bits nets) s.new.net)) }
    ensures few { OnOk result
        (net_count s.new.net ≤ net_count s.old.net + count * rail_cells code.now (map word_nets words.now)) }
{
    rows_of_cells_join();
    for _ in 0..count {
        add_rail(words, code, s)?;
    }
    Ok(())
}

// Appends one rail.
fn add_rail(words: &[WordNets], code: &Code, s: &mut Sketch) -> Result<(), AllocError>
    requires words { AllByRecursion (FitsCode code.now) (map word_nets words.now) }
    requires nets { AllByRecursion (λ n. n < net_count s.old.net)
        (flat_map nets_of (map word_nets words.now)) }
    requires room { net_count s.old.net + rail_cells code.now (map word_nets words.now) ≤ 2 ^ 23 }
    ensures kept { KeepsGates s.old.net s.new.net }
    ensures cell { OnOk result ((n : ℕ) × (map net_number s.new.cells.items ≡ map net_number s.old.cells.items ++ n ∷ [])
        × ((bit : Bit)
        → AreCells (λ net r. IsRailRange net (flat_map nets_of (map word_nets words.now)) (SomeIsNone code.now (map word_nets words.now)) r)
        (net_count s.old.net) ((bit, n) ∷ []) s.new.net)) }
    ensures few { OnOk result
        (net_count s.new.net ≤ net_count s.old.net + rail_cells code.now (map word_nets words.now)) }
{
    let cell = rail(words, code, &mut s.net)?;
    s.cells.push(cell)?;
    Ok(())
}
