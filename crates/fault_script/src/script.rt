// Script files.
ghost use Rattle.std.specs.Prelude.{◌≡◌, ◌<◌, ◌^◌, [], ◌∷◌, ◌++◌, ◌≢◌, ℕ, ◌==◌, length, IfErr, IfOk, OnOk, Some, None};
ghost use Rattle.std.specs.List.{list_any};
ghost use Rattle.stimulus_spec.specs.Stimulus.{script_of};
ghost use Rattle.fault_sim.specs.declared.faults.CellFault.{CellFault as Fault};
ghost use Rattle.fault_script.specs.Faults.{IsLineFault, IsScriptFault};
ghost use Rattle.fault_script.specs.Refusals.{cell_fault};
ghost use Rattle.fault_script.specs.Scripts.{IsScript, faults_in};

use crate::ScriptFault;
use crate::entry::entry_of;
use arrayvec::ArrayVec;
use fault_sim::{CellFault, Sim};
use imp_text::Lines;
use std::alloc::{AllocError, Global};
use std::collections::BTreeMap;
use std::marker::Model;

// Whether one of the faults has the cell of another.
fn has_cell(faults: &[CellFault], fault: CellFault) -> bool
    ensures { result ≡ list_any (λ (f : Fault). f.cell.0 == fault.cell.0) faults.now }
{
    faults.iter().any(|f| f.cell.0 == fault.cell.0)
}

fn copy_faults(faults: &ArrayVec<CellFault, 16>) -> ArrayVec<CellFault, 16>
    ensures { result.items ≡ faults.now.items }
{
    let mut copy = ArrayVec::new();
    let fits = copy.try_extend_from_slice(faults.as_slice()).is_ok();
    prove!(fits);
    copy
}

/// The faults of each cycle: at most sixteen, of distinct cells.
#[derive(Drop)]
pub struct Script {
    by_cycle: BTreeMap<u32, ArrayVec<CellFault, 16>>,
}

impl Model for Script {
    ghost use Rattle.fault_script.specs.Scripts.{Scripted, listed};

    ghost Value = { Scripted };

    ghost view = { λ s. record { by_cycle = listed s.by_cycle.entries } };
}

impl Script {
    /// The script that a text says for the cells of a simulator, or its first line at fault.
    pub fn read(alloc: Global, bytes: &[u8], sim: &Sim) -> Result<Script, ScriptFault>
        requires { length bytes.now < 2 ^ 32 }
        ensures ok { IfOk result (IsScript sim.now.cells (script_of sim.now.cells bytes.now)) }
        ensures fault { IfErr result (IsScriptFault (script_of sim.now.cells bytes.now)) }
    {
        let mut lines = Lines::plain(bytes);
        let mut words = Vec::new(alloc);
        let mut script = Script {
            by_cycle: BTreeMap::new(alloc),
        };
        'lines: while let Some(number) = lines.next_line(&mut words)? {
            let Some(entry) = entry_of(bytes, &words) else {
                return Err(ScriptFault::BadScript(number));
            };
            let Some(cell) = sim.cell(&bytes[entry.cell.start..entry.cell.end]) else {
                return Err(ScriptFault::NoSuchCell(number));
            };
            let fault = CellFault {
                cell,
                value: entry.value,
            };
            script.add(entry.cycle, fault, number)?;
        }
        Ok(script)
    }

    // One more fault of a cycle, which a line says, or what is wrong with it.
    fn add(&mut self, cycle: u32, fault: CellFault, line: u32) -> Result<(), ScriptFault>
        ensures fits { OnOk result (cell_fault (faults_in self.old cycle) fault line ≡ None) }
        ensures here { OnOk result (faults_in self.new cycle ≡ faults_in self.old cycle ++ fault ∷ []) }
        ensures others { OnOk result ((c : ℕ) → c ≢ cycle → faults_in self.new c ≡ faults_in self.old c) }
        ensures fault { IfErr result (IsLineFault (cell_fault (faults_in self.old cycle) fault line)) }
    {
        let mut faults = self.at(cycle);
        if has_cell(&faults, fault) {
            return Err(ScriptFault::BadScript(line));
        }
        if faults.try_push(fault).is_err() {
            return Err(ScriptFault::MoreThanSixteen(line));
        }
        self.put(cycle, faults)?;
        Ok(())
    }

    // A cycle has these faults in place of those that it had.
    fn put(&mut self, cycle: u32, faults: ArrayVec<CellFault, 16>) -> Result<(), AllocError>
        ensures here { OnOk result (faults_in self.new cycle ≡ faults.items) }
        ensures others { OnOk result ((c : ℕ) → c ≢ cycle → faults_in self.new c ≡ faults_in self.old c) }
    {
        self.by_cycle.insert(cycle, faults)?;
        Ok(())
    }

    /// The faults of cycle `c`, in the order of their lines.
    pub fn at(&self, c: u32) -> ArrayVec<CellFault, 16>
        ensures { result.items ≡ faults_in self.now c }
    {
        match self.by_cycle.get(&c) {
            Some(faults) => copy_faults(faults),
            None => ArrayVec::new(),
        }
    }
}
