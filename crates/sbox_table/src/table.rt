// S-box tables.
ghost use Rattle.std.specs.Prelude.{◌≡◌, ◌↔◌, ◌^◌, ◌<◌, ◌≤◌, IfSome, IsSome, IsTrue};
ghost use Rattle.std.specs.List.{AllByRecursion};
ghost use Rattle.netlist_spec.specs.Covers.{IsTable};

use imp_text::Name;
use std::marker::Model;

/// An S-box of 1 to 8 inputs and 1 to 8 outputs, with a row for each number that the inputs spell, input 0 lowest. Bit
/// `j` of a row is output `j` there, and a row has no bit at or above `outs`.
#[derive(Debug, Drop)]
pub struct Table {
    pub ins: u8,
    pub outs: u8,
    pub rows: Vec<u16>,
}

impl Model for Table {
    ghost use Rattle.netlist_spec.specs.Covers.{IsTable, Table as SboxTable};

    ghost Value = { SboxTable };

    ghost view = { λ t. record { ins = t.ins; outs = t.outs; rows = t.rows.items } };

    ghost invariant = { λ t. IsTable (record { ins = t.ins; outs = t.outs; rows = t.rows.items }) };
}

impl Table {
    /// The table of these rows, if the numbers of inputs and outputs are within 1 to 8, there is a row for each number
    /// that the inputs spell, and no row has a bit past the outputs.
    pub fn new(ins: u8, outs: u8, rows: Vec<u16>) -> Option<Table>
        ensures some { IfSome result (λ t. t ≡ record { ins = ins; outs = outs; rows = rows.items }) }
        ensures exactly { IsSome result ↔ IsTable (record { ins = ins; outs = outs; rows = rows.items }) }
    {
        if ins == 0 || ins > 8 {
            return None;
        }
        if outs == 0 || outs > 8 {
            return None;
        }
        if rows.len() != 1 << ins || !are_within(&rows, outs) {
            return None;
        }
        Some(Table { ins, outs, rows })
    }
}

// Whether no row has a bit past the outputs.
fn are_within(rows: &[u16], outs: u8) -> bool
    requires { outs ≤ 8 }
    ensures { IsTrue result ↔ AllByRecursion (λ n. n < 2 ^ outs) rows.now }
{
    for row in rows {
        if *row >> outs > 0 {
            return false;
        }
    }
    true
}

/// An S-box of a library.
#[derive(Debug, Drop)]
pub struct NamedTable {
    pub name: Name,
    pub table: Table,
}
