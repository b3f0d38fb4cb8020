// The plain size of a guard.
ghost use Rattle.std.specs.Prelude.{◌≡◌, ◌<◌, ◌≤◌, Some, Vec, ℕ, length, map, All, IfNone, IfOk, IfSome};
ghost use Rattle.std.specs.declared.alloc.Global.{Global as Heap};
ghost use Rattle.netlist_spec.specs.FileRules.{IsFile};
ghost use Rattle.netlist_spec.specs.Models.{main_model};
ghost use Rattle.netlist_spec.specs.Netlist.{File as SpecFile, Model as SpecModel};
ghost use Rattle.netlist_spec.specs.Sound.{HasOneDriverEach, IsSound};
ghost use Rattle.guard_spec.specs.Codes.{rail_count};
ghost use Rattle.guard_spec.specs.Plain.{IsPlain};
ghost use Rattle.blif_read.specs.Ids.{HasIds};
ghost use Rattle.blif_read.specs.View.{file_of, model_of};
ghost use Rattle.settings.specs.Types.{mode_in};
ghost use Rattle.source_nets.specs.Survey.{IsModelSurvey, IsSurvey};
ghost use Rattle.plain_size.specs.Cones.{AreCones, CanWalk, read_words as read_words_of};
ghost use Rattle.plain_size.specs.Nodes.{HasRows};
ghost use Rattle.plain_size.specs.Sizes.{AreCostsOf, AreMainCosts, IsMainPlain, IsPartitioned, IsUpToLimit, source_of};
ghost use Rattle.plain_size.specs.Sums.{IsWholeSum};

use crate::cones::{Cones, source_cones};
use crate::nets::latch_inputs;
use crate::prices::{node_costs, rails_cost};
use crate::sums::{add_outputs, add_state};
use crate::walk::{LIMIT, Walk};
use blif_read::{File, Model};
use encode_state::output_nets;
use encode_state::types::Layout;
use settings::{Mode, Settings};
use size_laws::{partial_sizes_add_up, partial_sizes_stay_below, sources_have_one_size};
use source_nets::{ModelSurvey, Survey};
use std::alloc::{AllocError, Global};

/// The plain size of a guard of the main model of a sound file, in cells, from what its statements cost. It is None exactly
/// where it is above 1,000,000. The survey is that of the file with the library of the settings.
pub fn size_by_costs(
    alloc: Global,
    file: &File,
    survey: &Survey,
    costs: &[u32],
    s: &Settings,
    l: &Layout,
) -> Result<Option<u32>, AllocError>
    requires ids { All HasIds file.now.models.items }
    requires is_file { IsFile (file_of file.now) }
    requires sound { IsSound (file_of file.now) s.now.library }
    requires survey { IsSurvey (file_of file.now) s.now.library survey.now }
    requires costs { AreMainCosts (file_of file.now) s.now.library costs.now }
    requires layout { (m : SpecModel) → main_model (file_of file.now) ≡ Some m → IsPartitioned m s.now.code l.now }
    ensures plain { IfOk result (λ size. IfSome size (λ n. IsMainPlain (file_of file.now) s.now l.now n × (n ≤ 1000000))) }
    ensures large { IfOk result (λ size. IfNone size ((n : ℕ) × IsMainPlain (file_of file.now) s.now l.now n × (1000000 < n))) }
{
    model_size(alloc, &file.models[0], &survey.models[0], costs, s, l)
}

// The size for one model.
fn model_size(
    alloc: Global,
    m: &Model,
    survey: &ModelSurvey,
    costs: &[u32],
    s: &Settings,
    l: &Layout,
) -> Result<Option<u32>, AllocError>
    requires ids { HasIds m.now }
    requires rows { HasRows m.now survey.now }
    requires costs { length costs.now ≡ length m.now.statements.items }
    requires layout { IsPartitioned (model_of m.now) s.now.code l.now }
    ensures { (file : SpecFile) → IsModelSurvey file s.now.library (model_of m.now) survey.now → HasOneDriverEach file s.now.library (model_of m.now)
        → AreCostsOf file s.now.library (model_of m.now) costs.now
        → IfOk result (IsUpToLimit (IsPlain file s.now.library (model_of m.now) s.now.code s.now.mode s.now.bound l.now)) }
{
    sources_have_one_size();
    partial_sizes_add_up();
    partial_sizes_stay_below();
    let start = rails_cost(&s.code, l, rails(s));
    if start > LIMIT {
        return Ok(None);
    }
    let cones = model_cones(alloc, m, survey, costs, s, l)?;
    whole_sum(alloc, m, &cones, s, l, start)
}

// The cones of a model.
fn model_cones(
    alloc: Global,
    m: &Model,
    survey: &ModelSurvey,
    costs: &[u32],
    s: &Settings,
    l: &Layout,
) -> Result<Cones, AllocError>
    requires ids { HasIds m.now }
    requires rows { HasRows m.now survey.now }
    requires costs { length costs.now ≡ length m.now.statements.items }
    requires layout { IsPartitioned (model_of m.now) s.now.code l.now }
    ensures walk { IfOk result CanWalk }
    ensures nets { IfOk result (λ cones. length cones.nodes.items ≡ length m.now.names) }
    ensures cones { (file : SpecFile) → IsModelSurvey file s.now.library (model_of m.now) survey.now → HasOneDriverEach file s.now.library (model_of m.now)
        → AreCostsOf file s.now.library (model_of m.now) costs.now → IfOk result (AreCones (source_of file (model_of m.now) s.now l.now)) }
{
    let words = read_words(s.mode, l);
    let all = node_costs(alloc, costs, &s.code, s.bound, words)?;
    source_cones(alloc, m, survey, all, words)
}

// The sum over all words, from that over the rails.
fn whole_sum(
    alloc: Global,
    m: &Model,
    cones: &Cones,
    s: &Settings,
    l: &Layout,
    start: u32,
) -> Result<Option<u32>, AllocError>
    requires ids { HasIds m.now }
    requires cones { CanWalk cones.now }
    requires nets { length cones.now.nodes.items ≡ length m.now.names }
    requires layout { IsPartitioned (model_of m.now) s.now.code l.now }
    requires small { start ≤ 1000000 }
    ensures small { IfOk result (λ size. IfSome size (λ n. n ≤ 1000000)) }
    ensures sum { (file : SpecFile) (rails : ℕ) → AreCones (source_of file (model_of m.now) s.now l.now) cones.now
        → IfOk result (IsWholeSum (source_of file (model_of m.now) s.now l.now) rails l.now start) }
{
    partial_sizes_add_up();
    let stores = latch_inputs(alloc, m)?;
    let outputs = output_nets(alloc, m)?;
    let mut walk = Walk::new(alloc, cones.graph.len())?;
    match add_state(cones, &mut walk, &s.code, &stores, &l.state, start)? {
        Some(total) => add_outputs(cones, &mut walk, &s.code, &outputs, &l.output, total),
        None => Ok(None),
    }
}

// How many rails a guard has.
fn rails(s: &Settings) -> u8
    ensures rails { result ≡ rail_count s.now.mode s.now.bound }
    ensures few { result ≤ 17 }
{
    match s.mode {
        Mode::Detect => s.bound + 1,
        Mode::Correct => 0,
    }
}

// The words that have correctors.
fn read_words(mode: Mode, l: &Layout) -> &[Vec<u32>]
    ensures { map (λ (w : Vec ℕ Heap). w.items) result.now ≡ read_words_of (mode_in mode) l.now.state }
{
    match mode {
        Mode::Detect => &l.state[..0],
        Mode::Correct => &l.state,
    }
}
