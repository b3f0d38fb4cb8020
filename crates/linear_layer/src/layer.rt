// Linear layers.
ghost use Rattle.std.specs.Prelude.{◌≡◌, ◌↔◌, ◌^◌, ◌<◌, ◌≤◌, IfSome, IsSome, IsTrue};
ghost use Rattle.std.specs.List.{AllByRecursion};
ghost use Rattle.netlist_spec.specs.Covers.{IsLinear};

use imp_text::Name;
use std::marker::Model;

/// A linear layer of 1 to 128 rows and 1 to 128 inputs. Bit `j` of a row is 1 where the row has a 1 for input `j`, and a
/// row has no bit at or above `width`, the number of inputs.
#[derive(Debug, Drop)]
pub struct Linear {
    pub rows: Vec<u128>,
    pub width: u8,
}

impl Model for Linear {
    ghost use Rattle.netlist_spec.specs.Covers.{IsLinear, Linear as LinearLayer};

    ghost Value = { LinearLayer };

    ghost view = { λ l. record { rows = l.rows.items; width = l.width } };

    ghost invariant = { λ l. IsLinear (record { rows = l.rows.items; width = l.width }) };
}

impl Linear {
    /// The layer of these rows and so many inputs, if their numbers are within 1 to 128 and no row has a bit past the
    /// inputs.
    pub fn new(rows: Vec<u128>, width: u8) -> Option<Linear>
        ensures some { IfSome result (λ l. l ≡ record { rows = rows.items; width = width }) }
        ensures exactly { IsSome result ↔ IsLinear (record { rows = rows.items; width = width }) }
    {
        if rows.is_empty() || rows.len() > 128 {
            return None;
        }
        if width == 0 || width > 128 {
            return None;
        }
        if !are_within(&rows, width) {
            return None;
        }
        Some(Linear { rows, width })
    }
}

// Whether no row has a bit past the inputs.
fn are_within(rows: &[u128], width: u8) -> bool
    requires some { 1 ≤ width }
    requires few { width ≤ 128 }
    ensures { IsTrue result ↔ AllByRecursion (λ n. n < 2 ^ width) rows.now }
{
    for row in rows {
        if *row >> (width - 1) > 1 {
            return false;
        }
    }
    true
}

/// A linear layer of a library.
#[derive(Debug, Drop)]
pub struct NamedLinear {
    pub name: Name,
    pub layer: Linear,
}
