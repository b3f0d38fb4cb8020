// Cells by number.
ghost use Rattle.std.specs.Prelude.{◌≡◌, ◌<◌, ◌^◌, List, [], ◌∷◌, ◌++◌, length, map, All, IfOk, IsTrue};
ghost use Rattle.netlist_spec.specs.Netlist.{Name as Bytes, are_distinct};
ghost use Rattle.imp_text.specs.declared.names.NameId.{NameId as Id};
ghost use Rattle.blif_read.specs.View.{name_at};
ghost use Rattle.fault_sim.specs.Cells.{AreCells};

use blif_read::{NameId, Names};
use std::alloc::{AllocError, Global};

/// The number of a cell in file order, from 0.
#[derive(Clone, Copy, Debug, Default, PartialEq, Eq)]
pub struct CellId(pub u32);

// The cell of each net, where there is one.
pub(crate) fn cells_by_net(
    alloc: Global,
    names: &Names,
    cells: &[NameId],
) -> Result<Vec<Option<CellId>>, AllocError>
    requires nets { All (λ (id : Id). id.0 < length names.now) cells.now }
    requires few { length cells.now < 2 ^ 32 }
    ensures { IfOk result (λ by_net. AreCells names.now (map (name_at names.now) cells.now) by_net.items) }
{
    let mut by_net = vec![in alloc; None; names.len() as usize]?;
    note_cells(by_net.as_mut_slice(), cells);
    Ok(by_net)
}

fn note_cells(by_net: &mut [Option<CellId>], cells: &[NameId])
    requires nets { All (λ (id : Id). id.0 < length by_net.old) cells.now }
    requires few { length cells.now < 2 ^ 32 }
    ensures { (all : List Bytes) → AreCells all [] by_net.old → AreCells all (map (name_at all) cells.now) by_net.new }
{
    for (i, id) in cells.iter().enumerate() {
        note_cell(by_net, *id, CellId(i as u32));
    }
}

// One more cell.
fn note_cell(by_net: &mut [Option<CellId>], id: NameId, cell: CellId)
    requires { id.0 < length by_net.old }
    ensures { (all cells : List Bytes) → AreCells all cells by_net.old → cell.0 ≡ length cells → AreCells all (cells ++ name_at all id ∷ []) by_net.new }
{
    by_net[id.0 as usize] = Some(cell);
}
