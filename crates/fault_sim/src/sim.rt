// The simulator of a netlist.
ghost use Rattle.std.specs.Prelude.{◌≡◌, ◌<◌, None, Some, length, slice_get, false, All, IfErr, IfNone, IfOk, IfSome, IsTrue, OnOk};
ghost use Rattle.netlist_spec.specs.FileRules.{IsFile};
ghost use Rattle.netlist_spec.specs.Netlist.{File as SpecFile, are_distinct, stands_in};
ghost use Rattle.netlist_spec.specs.Ordered.{order_fault};
ghost use Rattle.blif_read.specs.Ids.{HasIds};
ghost use Rattle.blif_read.specs.View.{file_of};
ghost use Rattle.line_order.specs.Faults.{IsFault, fault_of};
ghost use Rattle.fault_sim.specs.declared.faults.CellFault.{CellFault as Fault};
ghost use Rattle.fault_sim.specs.Faults.{named_faults};
ghost use Rattle.fault_sim.specs.Simulated.{CycleUnder, Simulated, Simulates};

use crate::build::build;
use crate::faults::force;
use crate::gates::Gates;
use crate::row::{LatchCell, fill_row, read_nets, start, store};
use crate::{CellFault, CellId, SimFault};
use blif_read::{File, NameId, Names};
use line_order::check_order;
use std::alloc::Global;
use std::marker::Model;

/// A netlist whose cells are computed line by line, and the bits that its latches have stored. Nets are known by number.
#[derive(Drop)]
pub struct Sim {
    pub(crate) names: Names,
    pub(crate) inputs: Vec<NameId>,
    pub(crate) latches: Vec<LatchCell>,
    pub(crate) gates: Gates,
    pub(crate) outputs: Vec<NameId>,
    // the output of each cell in file order, and the cell of each net
    pub(crate) cells: Vec<NameId>,
    pub(crate) by_net: Vec<Option<CellId>>,
    pub(crate) stored: Vec<bool>,
    // of one cycle: the bit of each net, and the bit of its fault
    pub(crate) row: Vec<bool>,
    pub(crate) forced: Vec<Option<bool>>,
}

impl Model for Sim {
    ghost use Rattle.fault_sim.specs.Gates.{AreGates, numbered};
    ghost use Rattle.fault_sim.specs.Simulated.{IsSimulator, Simulated, simulated};

    ghost Value = { Simulated };

    ghost view = { λ s. simulated s.names s.inputs.items s.latches.items (numbered s.gates) s.outputs.items s.cells.items s.stored.items };

    ghost invariant = { λ s. AreGates s.gates × IsSimulator s.names s.inputs.items s.latches.items (numbered s.gates) s.outputs.items s.cells.items s.by_net.items s.stored.items s.row.items s.forced.items };
}

impl Sim {
    /// The simulator of a file that is in order, whose latches have their inits; else the first line at fault.
    pub fn new(alloc: Global, file: &File) -> Result<Sim, SimFault>
        requires ids { All HasIds file.now.models.items }
        requires is_file { IsFile (file_of file.now) }
        ensures simulates { IfOk result (λ sim. Simulates (file_of file.now) sim) }
        ensures starts { IfOk result (λ sim. sim.stored ≡ sim.inits) }
        ensures ok { OnOk result (order_fault (file_of file.now) ≡ None) }
        ensures fault { IfErr result (λ fault. IsFault (order_fault (file_of file.now)) (fault_of fault)) }
    {
        check_order(alloc, file)?;
        Ok(build(alloc, &file.models[0])?)
    }

    /// How many cells there are. Their nets are distinct.
    pub fn cells(&self) -> u32
        ensures count { result ≡ length self.now.cells }
        ensures distinct { IsTrue (are_distinct self.now.cells) }
    {
        self.cells.len() as u32
    }

    /// How many data inputs there are.
    pub fn inputs(&self) -> u32
        ensures { result ≡ length self.now.inputs }
    {
        self.inputs.len() as u32
    }

    /// How many outputs there are.
    pub fn outputs(&self) -> u32
        ensures { result ≡ length self.now.outputs }
    {
        self.outputs.len() as u32
    }

    /// Each latch is back at its init.
    pub fn reset(&mut self)
        ensures { self.new ≡ record self.old { stored = self.old.inits } }
    {
        start(&self.latches, &mut self.stored);
    }

    /// The bits that the latches have stored.
    pub fn stored(&self) -> &[bool]
        ensures { result.now ≡ self.now.stored }
    {
        &self.stored
    }

    /// Each latch has one of these bits stored.
    pub fn restore(&mut self, stored: &[bool])
        requires { length stored.now ≡ length self.old.stored }
        ensures { self.new ≡ record self.old { stored = stored.now } }
    {
        self.stored.copy_from_slice(stored);
    }

    /// The number of the cell with this output net, and None exactly where there is none.
    pub fn cell(&self, name: &[u8]) -> Option<CellId>
        ensures place { IfSome result (λ id. slice_get self.now.cells id.0 ≡ Some name.now) }
        ensures absent { IfNone result (stands_in name.now self.now.cells ≡ false) }
        ensures distinct { IsTrue (are_distinct self.now.cells) }
    {
        match self.names.find(name) {
            Some(id) => self.by_net[id.0 as usize],
            None => None,
        }
    }

    /// One cycle: latches and then `.names` in file order have the bit of the fault that names them, else their own; the outputs
    /// are read; each latch stores its D. Where several faults name one cell, the first of them counts.
    pub fn cycle(&mut self, x: &[bool], faults: &[CellFault], out: &mut [bool])
        requires inputs { length x.now ≡ length self.old.inputs }
        requires outputs { length out.old ≡ length self.old.outputs }
        requires cells { All (λ (f : Fault). f.cell.0 < length self.old.cells) faults.now }
        ensures cycle { (file : SpecFile) (simulates : Simulates file self.old)
            → CycleUnder simulates.ordered.model (named_faults self.old.cells faults.now) x.now self.old.stored out.new self.new.stored }
        ensures netlist { self.new ≡ record self.old { stored = self.new.stored } }
    {
        force(&mut self.forced, &self.cells, faults);
        fill_row(
            &mut self.row,
            &self.forced,
            &self.inputs,
            x,
            &self.latches,
            &self.stored,
            &self.gates,
        );
        read_nets(&self.row, &self.outputs, out);
        store(&self.row, &self.latches, &mut self.stored);
    }
}
