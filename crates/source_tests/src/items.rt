// The declarations of a model in file order.
ghost use Rattle.std.specs.Prelude.{◌≡◌, map, All, IfOk};
ghost use Rattle.netlist_spec.specs.FileOrder.{items_of};
ghost use Rattle.blif_read.specs.View.{model_of};
ghost use Rattle.line_order.specs.Merge.{AreByLine, IsPlace, item_at};

use blif_read::Model;
use line_order::{Passed, Place, next_place};
use std::alloc::{AllocError, Global};

/// The declarations of a model by the numbers of their lines, by their places.
pub fn places_of(alloc: Global, m: &Model) -> Result<Vec<Place>, AllocError>
    requires { AreByLine (model_of m.now) }
    ensures items { IfOk result (λ places. map (item_at (model_of m.now)) places.items ≡ items_of (model_of m.now)) }
    ensures within { IfOk result (λ places. All (IsPlace m.now) places.items) }
{
    let mut places = Vec::new(alloc);
    let mut passed = Passed {
        inputs: 0,
        outputs: 0,
        clocks: 0,
        statements: 0,
    };
    while let Some(place) = next_place(m, &mut passed) {
        places.push(place)?;
    }
    Ok(places)
}
