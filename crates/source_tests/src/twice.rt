// Nets that have a second driver, or are declared twice.
ghost use Rattle.std.specs.Prelude.{◌≡◌, ◌<◌, ◌∷◌, ◌++◌, [], ◌||◌, List, length, map, option_map, All, IfOk, IfSome, IfNone};
ghost use Rattle.std.specs.Bool.{then_some};
ghost use Rattle.netlist_spec.specs.Covers.{Library};
ghost use Rattle.netlist_spec.specs.FileOrder.{Item};
ghost use Rattle.netlist_spec.specs.FileRules.{IsFile};
ghost use Rattle.netlist_spec.specs.Netlist.{File, Name as Bytes, stands_in};
ghost use Rattle.netlist_spec.specs.SoundFaults.{first_repeated, twice_at, twice_in};
ghost use Rattle.imp_text.specs.declared.names.NameId.{NameId as Id};
ghost use Rattle.blif_read.specs.Ids.{HasIds, IsIdOf};
ghost use Rattle.blif_read.specs.View.{model_of, name_at};
ghost use Rattle.line_order.specs.Marks.{Marks};
ghost use Rattle.line_order.specs.Merge.{AreByLine, IsPlace, item_at};
ghost use Rattle.source_nets.specs.Ports.{IsSource, source_file, source_library};
ghost use Rattle.source_nets.specs.Survey.{AreUsedMarks, IsModelSurvey, IsSurvey};
ghost use Rattle.source_tests.specs.Found.{IsFound};
ghost use Rattle.source_tests.specs.Seen.{AreSeen, HaveSize};

use crate::items::places_of;
use crate::marks::name_of;
use blif_read::{Model, Name, NameId};
use line_order::{NetMarks, Place};
use source_nets::{ModelSurvey, Source, Survey};
use std::alloc::{AllocError, Global};

/// The first net, in file order, that has a second driver or stands twice in `.inputs`, in `.outputs` or in `.clock`, in the
/// first used model that has one. A name may stand in both `.inputs` and `.clock`. `used` has a mark for each model.
pub fn first_twice(
    alloc: Global,
    source: &Source,
    survey: &Survey,
    used: &[bool],
) -> Result<Option<Name>, AllocError>
    requires source { IsSource source.now }
    requires is_file { IsFile (source_file source.now) }
    requires survey { IsSurvey (source_file source.now) (source_library source.now) survey.now }
    requires used { AreUsedMarks (source_file source.now) used.now }
    ensures exact { IfOk result (IsFound (source_file source.now) (twice_in (source_file source.now) (source_library source.now))) }
{
    for (k, m) in source.file.models.iter().enumerate() {
        if used[k] {
            if let Some(net) = twice_net(alloc, source, m, &survey.models[k])? {
                return Ok(Some(name_of(alloc, &m.names, net)?));
            }
        }
    }
    Ok(None)
}

// The first net of a model that is declared or driven twice.
fn twice_net(
    alloc: Global,
    source: &Source,
    m: &Model,
    survey: &ModelSurvey,
) -> Result<Option<NameId>, AllocError>
    requires ids { HasIds m.now }
    requires by_line { AreByLine (model_of m.now) }
    requires survey { IsModelSurvey (source_file source.now) (source_library source.now) (model_of m.now) survey.now }
    ensures exact { IfOk result (λ net. option_map (name_at m.now.names) net ≡ twice_in (source_file source.now) (source_library source.now) (model_of m.now)) }
    ensures within { IfOk result (λ net. IfSome net (IsIdOf m.now.names)) }
{
    let mut seen = Seen::new(alloc, m)?;
    let places = places_of(alloc, m)?;
    for place in &places {
        if let Some(net) = seen.pass(source, m, survey, *place) {
            return Ok(Some(net));
        }
    }
    Ok(None)
}

// Marks of what the declarations so far declare and drive.
#[derive(Drop)]
struct Seen {
    inputs: NetMarks,
    outputs: NetMarks,
    clocks: NetMarks,
    driven: NetMarks,
}

impl Seen {
    // No declaration has been passed.
    fn new(alloc: Global, m: &Model) -> Result<Seen, AllocError>
        ensures { IfOk result (λ seen. (file : File) (library : Library) → AreSeen file library (model_of m.now) [] seen) }
    {
        Ok(Seen {
            inputs: NetMarks::new(alloc, &m.names)?,
            outputs: NetMarks::new(alloc, &m.names)?,
            clocks: NetMarks::new(alloc, &m.names)?,
            driven: NetMarks::new(alloc, &m.names)?,
        })
    }

    // Passes a declaration. The net is answered that it declares or drives again, if there is one.
    fn pass(
        &mut self,
        source: &Source,
        m: &Model,
        survey: &ModelSurvey,
        place: Place,
    ) -> Option<NameId>
        requires ids { HasIds m.now }
        requires place { IsPlace m.now place }
        requires survey { IsModelSurvey (source_file source.now) (source_library source.now) (model_of m.now) survey.now }
        requires size { HaveSize (length m.now.names) self.old }
        ensures name { (passed : List Item) → AreSeen (source_file source.now) (source_library source.now) (model_of m.now) passed self.old
            → option_map (name_at m.now.names) result ≡ twice_at (source_file source.now) (source_library source.now) passed (item_at (model_of m.now) place).what }
        ensures seen { IfNone result ((passed : List Item) → AreSeen (source_file source.now) (source_library source.now) (model_of m.now) passed self.old
            → AreSeen (source_file source.now) (source_library source.now) (model_of m.now) (passed ++ item_at (model_of m.now) place ∷ []) self.new) }
        ensures within { IfSome result (IsIdOf m.now.names) }
    {
        match place {
            Place::Input(i) => mark_declared(&mut self.inputs, &self.driven, m.inputs[i].name),
            Place::Output(i) => mark_shown(&mut self.outputs, m.outputs[i].name),
            Place::Clock(i) => mark_declared(&mut self.clocks, &self.driven, m.clocks[i].name),
            Place::Statement(i) => {
                mark_driven(
                    &self.inputs,
                    &self.clocks,
                    &mut self.driven,
                    survey.drives(i),
                )
            }
        }
    }
}

// Marks an input, or a clock. It is answered where it had its mark or is driven.
fn mark_declared(ports: &mut NetMarks, driven: &NetMarks, id: NameId) -> Option<NameId>
    requires ports { id.0 < length ports.old }
    requires driven { id.0 < length driven.now }
    ensures name { (all listed nets : List Bytes) → Marks all ports.old listed → Marks all driven.now nets
        → option_map (name_at all) result ≡ then_some (stands_in (name_at all id) listed || stands_in (name_at all id) nets) (name_at all id) }
    ensures marked { (all listed : List Bytes) → Marks all ports.old listed → Marks all ports.new (listed ++ name_at all id ∷ []) }
    ensures within { IfSome result (λ found. found ≡ id) }
{
    let again = ports.has(id);
    let is_driven = driven.has(id);
    ports.mark(id);
    (again | is_driven).then_some(id)
}

// Marks an output. It is answered where it had its mark.
fn mark_shown(outputs: &mut NetMarks, id: NameId) -> Option<NameId>
    requires { id.0 < length outputs.old }
    ensures name { (all listed : List Bytes) → Marks all outputs.old listed
        → option_map (name_at all) result ≡ then_some (stands_in (name_at all id) listed) (name_at all id) }
    ensures marked { (all listed : List Bytes) → Marks all outputs.old listed → Marks all outputs.new (listed ++ name_at all id ∷ []) }
    ensures within { IfSome result (λ found. found ≡ id) }
{
    let again = outputs.has(id);
    outputs.mark(id);
    again.then_some(id)
}

// Marks the nets that a statement drives, up to the first that is an input, a clock or driven already, which is answered.
fn mark_driven(
    inputs: &NetMarks,
    clocks: &NetMarks,
    driven: &mut NetMarks,
    nets: &[NameId],
) -> Option<NameId>
    requires nets { All (λ (id : Id). id.0 < length driven.old) nets.now }
    requires inputs { length inputs.now ≡ length driven.old }
    requires clocks { length clocks.now ≡ length driven.old }
    ensures name { (all ins cs ds : List Bytes) → Marks all inputs.now ins → Marks all clocks.now cs → Marks all driven.old ds
        → option_map (name_at all) result ≡ first_repeated (ins ++ cs ++ ds) (map (name_at all) nets.now) }
    ensures marked { IfNone result ((all ds : List Bytes) → Marks all driven.old ds → Marks all driven.new (ds ++ map (name_at all) nets.now)) }
    ensures within { IfSome result (λ id. id.0 < length driven.old) }
{
    for net in nets {
        let is_input = inputs.has(*net);
        let is_clock = clocks.has(*net);
        let again = driven.has(*net);
        if is_input | is_clock | again {
            return Some(*net);
        }
        driven.mark(*net);
    }
    None
}
