// How latches are clocked.
ghost use Rattle.std.specs.Prelude.{◌≡◌, ◌<◌, ◌++◌, List, length, IsTrue, All};
ghost use Rattle.netlist_spec.specs.Netlist.{Model as SpecModel, Name as Bytes, are_distinct};
ghost use Rattle.netlist_spec.specs.Placed.{port_names};
ghost use Rattle.netlist_spec.specs.Models.{first_clocking as first_clocking_of, is_declared as is_declared_in, latches_of, same_clocking as same_clocking_of, same_control as same_control_of};
ghost use Rattle.imp_text.specs.declared.names.NameId.{NameId as Id};
ghost use Rattle.blif_read.specs.Ids.{HasIds, IsIdOf, control_ids};
ghost use Rattle.blif_read.specs.View.{clocking_of, model_of};
ghost use Rattle.line_order.specs.Marks.{Marks};
ghost use Rattle.line_order.specs.Tables.{control_of, named_control};

use crate::marks::NetMarks;
use blif_read::{Clocking, Model, Statement};
use imp_text::NameId;

/// The clocking of the first latch, and none where there is no latch.
pub fn first_clocking(m: &Model) -> Clocking
    requires { HasIds m.now }
    ensures first { clocking_of m.now.names result ≡ first_clocking_of (latches_of (model_of m.now)) }
    ensures ids { All (IsIdOf m.now.names) (control_ids result) }
{
    for s in &m.statements {
        if let Statement::Latch { clocking, .. } = &s.what {
            return *clocking;
        }
    }
    Clocking::Plain
}

fn same_control(a: Option<NameId>, b: Option<NameId>) -> bool
    ensures { (all : List Bytes) → IsTrue (are_distinct all) → All (IsIdOf all) (control_of a) → All (IsIdOf all) (control_of b)
        → result ≡ same_control_of (named_control all a) (named_control all b) }
{
    match (a, b) {
        (None, None) => true,
        (Some(x), Some(y)) => x.0 == y.0,
        _ => false,
    }
}

/// Whether two latches have the same pair, or both none.
pub fn same_clocking(a: Clocking, b: Clocking) -> bool
    ensures { (all : List Bytes) → IsTrue (are_distinct all) → All (IsIdOf all) (control_ids a) → All (IsIdOf all) (control_ids b)
        → result ≡ same_clocking_of (clocking_of all a) (clocking_of all b) }
{
    match (a, b) {
        (Clocking::Plain, Clocking::Plain) => true,
        (
            Clocking::Edge {
                rising: first,
                control: one,
            },
            Clocking::Edge {
                rising: second,
                control: other,
            },
        ) => {
            let same = same_control(one, other);
            first == second && same
        }
        _ => false,
    }
}

/// Whether a control is none or declared. `declared` has the marks of inputs and clocks.
pub fn is_declared(declared: &NetMarks, clocking: Clocking) -> bool
    requires { All (λ (id : Id). id.0 < length declared.now) (control_ids clocking) }
    ensures { (m : SpecModel) → Marks m.names declared.now (port_names m.inputs ++ port_names m.clocks) → result ≡ is_declared_in m (clocking_of m.names clocking) }
{
    if let Clocking::Edge { control, .. } = clocking {
        if let Some(id) = control {
            return declared.has(id);
        }
    }
    true
}
