// Nets that are read and have no driver.
ghost use Rattle.std.specs.Prelude.{◌≡◌, ◌<◌, List, length, map, find, not, option_map, All, IfOk, IfSome};
ghost use Rattle.netlist_spec.specs.Covers.{Library};
ghost use Rattle.netlist_spec.specs.FileRules.{IsFile};
ghost use Rattle.netlist_spec.specs.Netlist.{File, Name as Bytes, stands_in};
ghost use Rattle.netlist_spec.specs.SoundFaults.{item_reads, undriven_in};
ghost use Rattle.imp_text.specs.declared.names.NameId.{NameId as Id};
ghost use Rattle.blif_read.specs.Ids.{HasIds, IsIdOf};
ghost use Rattle.blif_read.specs.View.{model_of, name_at};
ghost use Rattle.line_order.specs.Marks.{Marks};
ghost use Rattle.line_order.specs.Merge.{AreByLine, IsPlace, item_at};
ghost use Rattle.source_nets.specs.Ports.{IsSource, source_file, source_library};
ghost use Rattle.source_nets.specs.Survey.{AreUsedMarks, IsModelSurvey, IsSurvey};
ghost use Rattle.source_tests.specs.Found.{IsFound};

use crate::items::places_of;
use crate::marks::{driven_marks, name_of};
use blif_read::{Model, Name, NameId};
use line_order::{NetMarks, Place};
use source_nets::{ModelSurvey, Source, Survey};
use std::alloc::{AllocError, Global};

/// The first net, in file order, that a used model reads and doesn't drive, in the first used model that has one. `used` has
/// a mark for each model.
pub fn first_undriven(
    alloc: Global,
    source: &Source,
    survey: &Survey,
    used: &[bool],
) -> Result<Option<Name>, AllocError>
    requires source { IsSource source.now }
    requires is_file { IsFile (source_file source.now) }
    requires survey { IsSurvey (source_file source.now) (source_library source.now) survey.now }
    requires used { AreUsedMarks (source_file source.now) used.now }
    ensures exact { IfOk result (IsFound (source_file source.now) (undriven_in (source_file source.now) (source_library source.now))) }
{
    for (k, m) in source.file.models.iter().enumerate() {
        if used[k] {
            if let Some(net) = undriven_net(alloc, source, m, &survey.models[k])? {
                return Ok(Some(name_of(alloc, &m.names, net)?));
            }
        }
    }
    Ok(None)
}

// The first net of a model that is read and not driven.
fn undriven_net(
    alloc: Global,
    source: &Source,
    m: &Model,
    survey: &ModelSurvey,
) -> Result<Option<NameId>, AllocError>
    requires ids { HasIds m.now }
    requires by_line { AreByLine (model_of m.now) }
    requires survey { IsModelSurvey (source_file source.now) (source_library source.now) (model_of m.now) survey.now }
    ensures exact { IfOk result (λ net. option_map (name_at m.now.names) net ≡ undriven_in (source_file source.now) (source_library source.now) (model_of m.now)) }
    ensures within { IfOk result (λ net. IfSome net (IsIdOf m.now.names)) }
{
    let driven = driven_marks(alloc, source, m, survey)?;
    let places = places_of(alloc, m)?;
    for place in &places {
        if let Some(net) = undriven_at(source, m, survey, &driven, *place) {
            return Ok(Some(net));
        }
    }
    Ok(None)
}

// The first net without a driver that a declaration reads.
fn undriven_at(
    source: &Source,
    m: &Model,
    survey: &ModelSurvey,
    driven: &NetMarks,
    place: Place,
) -> Option<NameId>
    requires ids { HasIds m.now }
    requires place { IsPlace m.now place }
    requires survey { IsModelSurvey (source_file source.now) (source_library source.now) (model_of m.now) survey.now }
    requires size { length driven.now ≡ length m.now.names }
    ensures name { (nets : List Bytes) → Marks m.now.names driven.now nets → option_map (name_at m.now.names) result
        ≡ find (λ n. not (stands_in n nets)) (item_reads (source_file source.now) (source_library source.now) (item_at (model_of m.now) place).what) }
    ensures within { IfSome result (IsIdOf m.now.names) }
{
    match place {
        Place::Input(_) | Place::Clock(_) => None,
        Place::Output(i) => first_unmarked(driven, &[m.outputs[i].name]),
        Place::Statement(i) => first_unmarked(driven, survey.reads(i)),
    }
}

fn first_unmarked(marks: &NetMarks, nets: &[NameId]) -> Option<NameId>
    requires { All (λ (id : Id). id.0 < length marks.now) nets.now }
    ensures name { (all listed : List Bytes) → Marks all marks.now listed → option_map (name_at all) result ≡ find (λ n. not (stands_in n listed)) (map (name_at all) nets.now) }
    ensures within { IfSome result (λ id. id.0 < length marks.now) }
{
    for net in nets {
        if !marks.has(*net) {
            return Some(*net);
        }
    }
    None
}
