// Which statement drives each net.
ghost use Rattle.std.specs.Prelude.{◌≡◌, ◌<◌, length, All, IfOk};
ghost use Rattle.netlist_spec.specs.Covers.{Library};
ghost use Rattle.netlist_spec.specs.Netlist.{File as SpecFile};
ghost use Rattle.netlist_spec.specs.Sound.{HasOneDriverEach};
ghost use Rattle.imp_text.specs.declared.names.NameId.{NameId as Id};
ghost use Rattle.blif_read.specs.View.{model_of};
ghost use Rattle.source_nets.specs.Survey.{IsModelSurvey};
ghost use Rattle.source_loops.specs.Drivers.{AreDrivers, IsSurveyed, Puts};

use crate::nets::does_combine;
use blif_read::Model;
use imp_text::NameId;
use source_nets::ModelSurvey;
use std::alloc::{AllocError, Global};

/// For each net of a model the place of the statement that combines and drives it, and the number of statements where none
/// does.
pub fn net_drivers(alloc: Global, m: &Model, survey: &ModelSurvey) -> Result<Vec<usize>, AllocError>
    requires { IsSurveyed (model_of m.now) survey.now }
    ensures { IfOk result (λ drivers. (file : SpecFile) (library : Library) → IsModelSurvey file library (model_of m.now) survey.now
        → HasOneDriverEach file library (model_of m.now) → AreDrivers file library (model_of m.now) drivers.items) }
{
    let mut drivers = vec![in alloc; m.statements.len(); m.names.len() as usize]?;
    for (place, s) in m.statements.iter().enumerate() {
        if does_combine(&s.what) {
            put_driver(survey.drives.row(place), place, &mut drivers);
        }
    }
    Ok(drivers)
}

// Puts a place at some nets.
fn put_driver(nets: &[NameId], place: usize, drivers: &mut [usize])
    requires { All (λ (id : Id). id.0 < length drivers.old) nets.now }
    ensures { Puts nets.now place drivers.old drivers.new }
{
    for id in nets {
        drivers[id.0 as usize] = place;
    }
}
