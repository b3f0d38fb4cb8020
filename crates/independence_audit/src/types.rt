// What an audit says.

use blif_read::NameId;
use gate_net::Bit;

/// The number of a cell in file order, from 0.
#[derive(Clone, Copy, Debug, PartialEq, Eq)]
pub struct CellId(pub u32);

/// What an audit says of a netlist: the one bit of each cell, or the finding of the first cell in file order that has one.
#[derive(Debug, Drop)]
pub enum Audit {
    /// Each cell serves one bit: its bit, cell by cell in file order.
    Independent(Vec<Bit>),
    /// The cell has more than two inputs.
    Wide { cell: CellId },
    /// The cell has no bit.
    Unused { cell: CellId },
    /// The cell has these two bits, the first two of all that it has: latches before outputs.
    Shared { cell: CellId, one: Bit, other: Bit },
    /// The cell reads an output net that a cell drives, and its bit is no rail.
    OutputRead { net: NameId, cell: CellId },
}
