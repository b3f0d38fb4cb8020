// Which nets are driven, may be read and may be passed on, as far as a model has been gone through.
ghost use Rattle.std.specs.Prelude.{◌≡◌, ℕ, ◌<◌, List, [], ◌∷◌, ◌++◌, length, map, Option, IfOk, All};
ghost use Rattle.netlist_spec.specs.FileOrder.{Item, a_clock, a_statement, an_input, an_output};
ghost use Rattle.netlist_spec.specs.Models.{clock_nets, data_inputs};
ghost use Rattle.netlist_spec.specs.Netlist.{Cover, Model as SpecModel, latch, names};
ghost use Rattle.netlist_spec.specs.Ordered.{is_at_fault, item_fault};
ghost use Rattle.netlist_spec.specs.Placed.{port_names};
ghost use Rattle.imp_text.specs.declared.names.NameId.{NameId as Id};
ghost use Rattle.blif_read.specs.Ids.{HasIds, control_ids, ids_in};
ghost use Rattle.blif_read.specs.View.{clocking_of, located_of, model_of, name_at, statement_of};
ghost use Rattle.line_order.specs.Faults.{told_fault};
ghost use Rattle.line_order.specs.Merge.{IsPlace, item_at};
ghost use Rattle.line_order.specs.Marks.{Marks};
ghost use Rattle.line_order.specs.Tables.{AreTables, HaveSize, is_driven_before};

use crate::OrderFault;
use crate::clocking::{first_clocking, is_declared, same_clocking};
use crate::fault::unordered_if;
use crate::marks::NetMarks;
use crate::merge::Place;
use blif_read::{Clocking, Located, Model, Statement};
use imp_text::NameId;
use std::alloc::{AllocError, Global};

// Marks of the nets of a model. `sources` and `declared` are of the whole model; `known` begins with what any line may
// read, and it and the last four grow with the lines that are passed.
#[derive(Drop)]
pub(crate) struct Tables {
    // data inputs, outputs of latches, and outputs of the `.names` so far
    known: NetMarks,
    // data inputs and cells
    sources: NetMarks,
    // inputs and clocks
    declared: NetMarks,
    // so far
    inputs: NetMarks,
    outputs: NetMarks,
    clocks: NetMarks,
    cells: NetMarks,
    first: Clocking,
}

impl Tables {
    // The marks where no line has been passed.
    pub(crate) fn new(alloc: Global, m: &Model) -> Result<Tables, AllocError>
        requires { HasIds m.now }
        ensures { IfOk result (λ t. AreTables (model_of m.now) [] t) }
    {
        let mut known = data_marks(alloc, m)?;
        known.mark_latches(&m.statements);
        let mut sources = data_marks(alloc, m)?;
        sources.mark_cells(&m.statements);
        let declared = declared_marks(alloc, m)?;
        Ok(Tables {
            known,
            sources,
            declared,
            inputs: NetMarks::new(alloc, &m.names)?,
            outputs: NetMarks::new(alloc, &m.names)?,
            clocks: NetMarks::new(alloc, &m.names)?,
            cells: NetMarks::new(alloc, &m.names)?,
            first: first_clocking(m),
        })
    }

    // What is wrong with a declaration, given the lines that have been passed.
    pub(crate) fn fault_at(&self, m: &Model, place: Place) -> Option<OrderFault>
        requires ids { HasIds m.now }
        requires place { IsPlace m.now place }
        requires size { HaveSize (length m.now.names) self.now }
        ensures { (passed : List Item) → AreTables (model_of m.now) passed self.now
            → told_fault result ≡ item_fault (model_of m.now) passed (item_at (model_of m.now) place) }
    {
        match place {
            Place::Input(i) => {
                let port = m.inputs[i];
                unordered_if(self.is_input_again(port.name), port.line)
            }
            Place::Output(i) => {
                let port = m.outputs[i];
                unordered_if(self.is_wrong_output(port.name), port.line)
            }
            Place::Clock(i) => {
                let port = m.clocks[i];
                unordered_if(self.is_clock_again(port.name), port.line)
            }
            Place::Statement(i) => self.statement_fault(&m.statements[i]),
        }
    }

    fn is_input_again(&self, id: NameId) -> bool
        requires inputs { id.0 < length self.now.inputs }
        requires cells { id.0 < length self.now.cells }
        ensures { (m : SpecModel) (passed : List Item) → AreTables m passed self.now → result ≡ is_at_fault m passed (an_input (name_at m.names id)) }
    {
        let input = self.inputs.has(id);
        let cell = self.cells.has(id);
        input | cell
    }

    fn is_wrong_output(&self, id: NameId) -> bool
        requires outputs { id.0 < length self.now.outputs }
        requires sources { id.0 < length self.now.sources }
        ensures { (m : SpecModel) (passed : List Item) → AreTables m passed self.now → result ≡ is_at_fault m passed (an_output (name_at m.names id)) }
    {
        let output = self.outputs.has(id);
        let has_source = self.sources.has(id);
        output | !has_source
    }

    fn is_clock_again(&self, id: NameId) -> bool
        requires clocks { id.0 < length self.now.clocks }
        requires cells { id.0 < length self.now.cells }
        ensures { (m : SpecModel) (passed : List Item) → AreTables m passed self.now → result ≡ is_at_fault m passed (a_clock (name_at m.names id)) }
    {
        let clock = self.clocks.has(id);
        let cell = self.cells.has(id);
        clock | cell
    }

    fn statement_fault(&self, s: &Located) -> Option<OrderFault>
        requires { (size : ℕ) × (HaveSize size self.now × All (λ (id : Id). id.0 < size) (ids_in s.now.what)) }
        ensures { (m : SpecModel) (passed : List Item) → AreTables m passed self.now
            → told_fault result ≡ item_fault m passed (record { line = s.now.line; what = a_statement (located_of m.names s.now).what }) }
    {
        match &s.what {
            Statement::Names { ins, out, .. } => {
                unordered_if(self.is_wrong_gate(ins, *out), s.line)
            }
            Statement::Latch { d, q, clocking, .. } => unordered_if(
                self.is_wrong_latch(*d, *q, *clocking),
                s.line,
            ),
            Statement::Subckt { .. } => Some(OrderFault::HasSubckt(s.line)),
        }
    }

    // Whether a net is driven by a line that has been passed.
    fn is_driven(&self, id: NameId) -> bool
        requires { (size : ℕ) × (HaveSize size self.now × (id.0 < size)) }
        ensures { (m : SpecModel) (passed : List Item) → AreTables m passed self.now → result ≡ is_driven_before passed (name_at m.names id) }
    {
        let input = self.inputs.has(id);
        let clock = self.clocks.has(id);
        let cell = self.cells.has(id);
        input | clock | cell
    }

    // Whether a `.names` drives a net again or reads a later net.
    fn is_wrong_gate(&self, ins: &[NameId], out: NameId) -> bool
        requires { (size : ℕ) × (HaveSize size self.now × (All (λ (id : Id). id.0 < size) ins.now × (out.0 < size))) }
        ensures { (m : SpecModel) (passed : List Item) (cover : Cover) → AreTables m passed self.now
            → result ≡ is_at_fault m passed (a_statement (names (map (name_at m.names) ins.now) (name_at m.names out) cover)) }
    {
        let driven = self.is_driven(out);
        let known = self.known.has_all(ins);
        driven | !known
    }

    // Whether a latch drives a net again, stores a net without a source or is clocked otherwise than the first one.
    fn is_wrong_latch(&self, d: NameId, q: NameId, clocking: Clocking) -> bool
        requires { (size : ℕ) × (HaveSize size self.now × ((d.0 < size) × (q.0 < size) × All (λ (id : Id). id.0 < size) (control_ids clocking))) }
        ensures { (m : SpecModel) (passed : List Item) (init : Option ℕ) → AreTables m passed self.now
            → result ≡ is_at_fault m passed (a_statement (latch (name_at m.names d) (name_at m.names q) (clocking_of m.names clocking) init)) }
    {
        let driven = self.is_driven(q);
        let has_source = self.sources.has(d);
        let alike = same_clocking(clocking, self.first);
        let declared = is_declared(&self.declared, clocking);
        driven | !has_source | !alike | !declared
    }

    // Marks what a declaration drives and shows.
    pub(crate) fn pass(&mut self, m: &Model, place: Place)
        requires ids { HasIds m.now }
        requires place { IsPlace m.now place }
        requires size { HaveSize (length m.now.names) self.old }
        ensures { (passed : List Item) → AreTables (model_of m.now) passed self.old
            → AreTables (model_of m.now) (passed ++ item_at (model_of m.now) place ∷ []) self.new }
    {
        match place {
            Place::Input(i) => self.inputs.mark(m.inputs[i].name),
            Place::Output(i) => self.outputs.mark(m.outputs[i].name),
            Place::Clock(i) => self.clocks.mark(m.clocks[i].name),
            Place::Statement(i) => self.pass_statement(&m.statements[i].what),
        }
    }

    fn pass_statement(&mut self, s: &Statement)
        requires { (size : ℕ) × (HaveSize size self.old × All (λ (id : Id). id.0 < size) (ids_in s.now)) }
        ensures { (m : SpecModel) (passed : List Item) (line : ℕ) → AreTables m passed self.old
            → AreTables m (passed ++ record { line = line; what = a_statement (statement_of m.names s.now) } ∷ []) self.new }
    {
        match s {
            Statement::Names { out, .. } => {
                self.cells.mark(*out);
                self.known.mark(*out);
            }
            Statement::Latch { q, .. } => self.cells.mark(*q),
            Statement::Subckt { .. } => {}
        }
    }
}

/// The clock nets are marked: the names of `.clock` and the controls of latches other than `NIL`.
pub fn clock_marks(alloc: Global, m: &Model) -> Result<NetMarks, AllocError>
    requires { HasIds m.now }
    ensures { IfOk result (λ marks. Marks m.now.names marks (clock_nets (model_of m.now))) }
{
    let mut clocks = NetMarks::new(alloc, &m.names)?;
    clocks.mark_ports(&m.clocks);
    clocks.mark_controls(&m.statements);
    Ok(clocks)
}

/// The names of `.inputs` and of `.clock` are marked.
pub fn declared_marks(alloc: Global, m: &Model) -> Result<NetMarks, AllocError>
    requires { HasIds m.now }
    ensures { IfOk result (λ marks. Marks m.now.names marks (port_names (model_of m.now).inputs ++ port_names (model_of m.now).clocks)) }
{
    let mut declared = NetMarks::new(alloc, &m.names)?;
    declared.mark_ports(&m.inputs);
    declared.mark_ports(&m.clocks);
    Ok(declared)
}

// The data inputs are marked.
fn data_marks(alloc: Global, m: &Model) -> Result<NetMarks, AllocError>
    requires { HasIds m.now }
    ensures { IfOk result (λ marks. Marks m.now.names marks (data_inputs (model_of m.now))) }
{
    let clocks = clock_marks(alloc, m)?;
    let mut marks = NetMarks::new(alloc, &m.names)?;
    marks.mark_data(&clocks, &m.inputs);
    Ok(marks)
}
