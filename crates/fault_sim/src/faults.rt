// Faults of one cycle.
ghost use Rattle.std.specs.Prelude.{◌≡◌, ◌<◌, List, [], ◌∷◌, ◌++◌, length, map, All, IsTrue};
ghost use Rattle.netlist_spec.specs.Netlist.{Name as Bytes, are_distinct};
ghost use Rattle.netlist_spec.specs.Values.{Forced};
ghost use Rattle.imp_text.specs.declared.names.NameId.{NameId as Id};
ghost use Rattle.blif_read.specs.View.{name_at};
ghost use Rattle.fault_sim.specs.declared.faults.CellFault.{CellFault as Fault};
ghost use Rattle.fault_sim.specs.Faults.{Forces, named_faults};
ghost use Rattle.fault_sim.specs.Gates.{shown_bit};

use crate::CellId;
use blif_read::NameId;

/// A cell that gives a chosen bit for a whole cycle.
#[derive(Clone, Copy, Debug, Default, PartialEq, Eq)]
pub struct CellFault {
    pub cell: CellId,
    pub value: bool,
}

// The fault's bit if there is one, else the cell's own.
pub(crate) fn shown(forced: &[Option<bool>], id: NameId, own: bool) -> bool
    requires { id.0 < length forced.now }
    ensures { result ≡ shown_bit forced.now id own }
{
    forced[id.0 as usize].unwrap_or(own)
}

// No net has a fault.
fn clear(table: &mut [Option<bool>])
    ensures { (all : List Bytes) → IsTrue (are_distinct all) → length table.old ≡ length all → Forces all table.new [] }
{
    for slot in table.iter_mut() {
        *slot = None;
    }
}

// One more fault, which counts where its net has none yet.
fn force_net(table: &mut [Option<bool>], net: NameId, bit: bool)
    requires { net.0 < length table.old }
    ensures { (all : List Bytes) (faults : Forced) → Forces all table.old faults → Forces all table.new (faults ++ (name_at all net, bit) ∷ []) }
{
    let place = net.0 as usize;
    if table[place].is_none() {
        table[place] = Some(bit);
    }
}

// Makes the table of some faults, of which the first of a cell counts.
pub(crate) fn force(table: &mut [Option<bool>], nets: &[NameId], faults: &[CellFault])
    requires cells { All (λ (f : Fault). f.cell.0 < length nets.now) faults.now }
    requires nets { All (λ (id : Id). id.0 < length table.old) nets.now }
    ensures { (all : List Bytes) → IsTrue (are_distinct all) → length table.old ≡ length all
        → Forces all table.new (named_faults (map (name_at all) nets.now) faults.now) }
{
    clear(table);
    for fault in faults {
        let net = nets[fault.cell.0 as usize];
        force_net(table, net, fault.value);
    }
}
