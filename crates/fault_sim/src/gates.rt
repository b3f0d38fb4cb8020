// The `.names` of a model, by the numbers of their nets.
ghost use Rattle.std.specs.Prelude.{◌≡◌, ◌≤◌, [], ◌∷◌, ◌++◌, length, All, OnOk};
ghost use Rattle.blif_read.specs.View.{cover_of};
ghost use Rattle.fault_sim.specs.Gates.{AreGates, IsGateWithin, numbered, put_gates};

use crate::cover::{copy_cover, table_of, value_at};
use crate::faults::shown;
use blif_read::{Cover, NameId};
use std::alloc::{AllocError, Global};

// A `.names`: where its inputs begin in the list of all inputs, how many there are, and its answers where they are at most two.
#[derive(Clone, Copy, Debug)]
pub(crate) struct GateCell {
    first: usize,
    out: NameId,
    width: u8,
    table: [bool; 4],
}

// The `.names` in the order of their lines. The inputs of all of them stand in one list. The covers are read by wide ones alone.
#[derive(Drop)]
pub(crate) struct Gates {
    cells: Vec<GateCell>,
    reads: Vec<NameId>,
    covers: Vec<Cover>,
}

impl Gates {
    // No gates.
    pub(crate) fn new(alloc: Global) -> Gates
        ensures none { numbered result ≡ [] }
        ensures are_gates { AreGates result }
    {
        Gates {
            cells: Vec::new(alloc),
            reads: Vec::new(alloc),
            covers: Vec::new(alloc),
        }
    }

    // Appends a gate. Where memory is wanting, the lists are of no more use.
    pub(crate) fn push(
        &mut self,
        alloc: Global,
        ins: &[NameId],
        out: NameId,
        cover: &Cover,
    ) -> Result<(), AllocError>
        requires few { length ins.now ≤ 16 }
        requires are_gates { AreGates self.old }
        ensures gates { OnOk result (numbered self.new ≡ numbered self.old ++ record { ins = ins.now; out = out; cover = cover_of cover.now } ∷ []) }
        ensures are_gates { OnOk result (AreGates self.new) }
    {
        let first = self.reads.len();
        let width = ins.len() as u8;
        let table = table_of(cover, ins.len());
        let copy = copy_cover(alloc, cover)?;
        self.reads.extend_from_slice(ins)?;
        self.covers.push(copy)?;
        self.cells.push(GateCell {
            first,
            out,
            width,
            table,
        })?;
        Ok(())
    }

    // Puts the bits of the gates into the row, one gate after the other: the bit of its fault if it has one.
    pub(crate) fn put(&self, forced: &[Option<bool>], row: &mut [bool])
        requires are_gates { AreGates self.now }
        requires nets { All (IsGateWithin (length row.old)) (numbered self.now) }
        requires forced { length forced.now ≡ length row.old }
        ensures { row.new ≡ put_gates forced.now row.old (numbered self.now) }
    {
        for (i, cell) in self.cells.iter().enumerate() {
            let end = cell.first + usize::from(cell.width);
            let own = value_at(
                cell.table,
                &self.covers[i],
                &self.reads[cell.first..end],
                row,
            );
            row[cell.out.0 as usize] = shown(forced, cell.out, own);
        }
    }
}
