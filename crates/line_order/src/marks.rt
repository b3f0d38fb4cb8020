// Marks at names, by their numbers.
ghost use Rattle.std.specs.Prelude.{◌≡◌, ◌<◌, List, [], ◌∷◌, ◌++◌, filter, length, map, not, IfOk, All, if◌then◌else◌};
ghost use Rattle.std.specs.List.{flat_map, list_all};
ghost use Rattle.netlist_spec.specs.Netlist.{Name as Bytes, stands_in};
ghost use Rattle.imp_text.specs.declared.names.NameId.{NameId as Id};
ghost use Rattle.blif_read.specs.declared.file.Port.{Port as ReadPort};
ghost use Rattle.blif_read.specs.declared.file.Located.{Located as ReadLocated};
ghost use Rattle.blif_read.specs.Ids.{ids_in};
ghost use Rattle.blif_read.specs.View.{name_at, statement_of};
ghost use Rattle.line_order.specs.Marks.{Marks, cell_of, controls_of, latch_output_of};

use blif_read::{Clocking, Located, Port, Statement};
use imp_text::{NameId, Names};
use std::alloc::{AllocError, Global};
use std::marker::Model;

/// A mark for each name of a model.
#[derive(Drop)]
pub struct NetMarks {
    marks: Vec<bool>,
}

impl Model for NetMarks {
    ghost use Rattle.std.specs.Prelude.{Bool, List};

    ghost Value = { List Bool };

    ghost view = { λ m. m.marks.items };
}

impl NetMarks {
    /// No name is marked.
    pub fn new(alloc: Global, names: &Names) -> Result<NetMarks, AllocError>
        ensures { IfOk result (λ marks. Marks names.now marks []) }
    {
        Ok(NetMarks {
            marks: vec![in alloc; false; names.len() as usize]?,
        })
    }

    /// Whether a name is marked.
    pub fn has(&self, id: NameId) -> bool
        requires { id.0 < length self.now }
        ensures { (all listed : List Bytes) → Marks all self.now listed → result ≡ stands_in (name_at all id) listed }
    {
        self.marks[id.0 as usize]
    }

    // Whether all the names are marked.
    pub(crate) fn has_all(&self, ids: &[NameId]) -> bool
        requires { All (λ (id : Id). id.0 < length self.now) ids.now }
        ensures { (all listed : List Bytes) → Marks all self.now listed → result ≡ list_all (λ n. stands_in n listed) (map (name_at all) ids.now) }
    {
        for id in ids {
            if !self.has(*id) {
                return false;
            }
        }
        true
    }

    /// Marks a name.
    pub fn mark(&mut self, id: NameId)
        requires { id.0 < length self.old }
        ensures size { length self.new ≡ length self.old }
        ensures marked { (all listed : List Bytes) → Marks all self.old listed → Marks all self.new (listed ++ name_at all id ∷ []) }
    {
        self.marks[id.0 as usize] = true;
    }

    // Marks a name where the test says so.
    fn mark_if(&mut self, test: bool, id: NameId)
        requires { id.0 < length self.old }
        ensures size { length self.new ≡ length self.old }
        ensures marked { (all listed : List Bytes) → Marks all self.old listed → Marks all self.new (listed ++ (if test then name_at all id ∷ [] else [])) }
    {
        if test {
            self.mark(id);
        }
    }

    /// Marks the names of ports.
    pub fn mark_ports(&mut self, ports: &[Port])
        requires { All (λ (port : ReadPort). port.name.0 < length self.old) ports.now }
        ensures size { length self.new ≡ length self.old }
        ensures marked { (all listed : List Bytes) → Marks all self.old listed → Marks all self.new (listed ++ map (λ (port : ReadPort). name_at all port.name) ports.now) }
    {
        for port in ports {
            self.mark(port.name);
        }
    }

    // Marks the names of ports that are no clock nets.
    pub(crate) fn mark_data(&mut self, clocks: &NetMarks, ports: &[Port])
        requires same { length clocks.now ≡ length self.old }
        requires ports { All (λ (port : ReadPort). port.name.0 < length self.old) ports.now }
        ensures { (all listed nets : List Bytes) → Marks all clocks.now nets → Marks all self.old listed
            → Marks all self.new (listed ++ filter (λ n. not (stands_in n nets)) (map (λ (port : ReadPort). name_at all port.name) ports.now)) }
    {
        for port in ports {
            let is_clock = clocks.has(port.name);
            self.mark_if(!is_clock, port.name);
        }
    }

    fn mark_control(&mut self, s: &Statement)
        requires { All (λ (id : Id). id.0 < length self.old) (ids_in s.now) }
        ensures size { length self.new ≡ length self.old }
        ensures marked { (all listed : List Bytes) → Marks all self.old listed → Marks all self.new (listed ++ controls_of (statement_of all s.now)) }
    {
        if let Statement::Latch { clocking, .. } = s {
            if let Clocking::Edge { control, .. } = clocking {
                if let Some(id) = control {
                    self.mark(*id);
                }
            }
        }
    }

    // Marks the controls of latches.
    pub(crate) fn mark_controls(&mut self, statements: &[Located])
        requires { All (λ (s : ReadLocated). All (λ (id : Id). id.0 < length self.old) (ids_in s.what)) statements.now }
        ensures size { length self.new ≡ length self.old }
        ensures marked { (all listed : List Bytes) → Marks all self.old listed
            → Marks all self.new (listed ++ flat_map (λ (s : ReadLocated). controls_of (statement_of all s.what)) statements.now) }
    {
        for s in statements {
            self.mark_control(&s.what);
        }
    }

    fn mark_latch(&mut self, s: &Statement)
        requires { All (λ (id : Id). id.0 < length self.old) (ids_in s.now) }
        ensures size { length self.new ≡ length self.old }
        ensures marked { (all listed : List Bytes) → Marks all self.old listed → Marks all self.new (listed ++ latch_output_of (statement_of all s.now)) }
    {
        if let Statement::Latch { q, .. } = s {
            self.mark(*q);
        }
    }

    // Marks the outputs of latches.
    pub(crate) fn mark_latches(&mut self, statements: &[Located])
        requires { All (λ (s : ReadLocated). All (λ (id : Id). id.0 < length self.old) (ids_in s.what)) statements.now }
        ensures size { length self.new ≡ length self.old }
        ensures marked { (all listed : List Bytes) → Marks all self.old listed
            → Marks all self.new (listed ++ flat_map (λ (s : ReadLocated). latch_output_of (statement_of all s.what)) statements.now) }
    {
        for s in statements {
            self.mark_latch(&s.what);
        }
    }

    fn mark_cell(&mut self, s: &Statement)
        requires { All (λ (id : Id). id.0 < length self.old) (ids_in s.now) }
        ensures size { length self.new ≡ length self.old }
        ensures marked { (all listed : List Bytes) → Marks all self.old listed → Marks all self.new (listed ++ cell_of (statement_of all s.now)) }
    {
        match s {
            Statement::Names { out, .. } => self.mark(*out),
            Statement::Latch { q, .. } => self.mark(*q),
            Statement::Subckt { .. } => {}
        }
    }

    /// Marks the outputs of cells.
    pub fn mark_cells(&mut self, statements: &[Located])
        requires { All (λ (s : ReadLocated). All (λ (id : Id). id.0 < length self.old) (ids_in s.what)) statements.now }
        ensures size { length self.new ≡ length self.old }
        ensures marked { (all listed : List Bytes) → Marks all self.old listed
            → Marks all self.new (listed ++ flat_map (λ (s : ReadLocated). cell_of (statement_of all s.what)) statements.now) }
    {
        for s in statements {
            self.mark_cell(&s.what);
        }
    }
}
