// The words of a guard.
ghost use Rattle.std.specs.Prelude.{◌≡◌, ◌<◌, ◌≤◌, ◌^◌, None, length, map, option_map, All, IfErr, IfOk, IsTrue, OnOk};
ghost use Rattle.std.specs.List.{AllByRecursion};
ghost use Rattle.guard_spec.specs.Codes.{data_places};
ghost use Rattle.netlist_spec.specs.Models.{latch_outputs as latch_outputs_of, output_nets as output_nets_of};
ghost use Rattle.netlist_spec.specs.Netlist.{are_distinct};
ghost use Rattle.guard_spec.specs.Words.{IsLayout, IsLayoutOver, IsPartition, all_numbers, as_fault, layout_fault, layout_fault_over, no_such_net, unknown_name};
ghost use Rattle.blif_read.specs.Ids.{HasIds, IsIdOf};
ghost use Rattle.blif_read.specs.View.{model_of, name_at};
ghost use Rattle.settings.specs.Types.{words_in as named_in};
ghost use Rattle.encode_state.specs.Faults.{IsFault, fault_of};
ghost use Rattle.encode_state.specs.Listed.{AreFound, ComesOnce, once_fault};
ghost use Rattle.encode_state.specs.Types.{words_in};

use crate::LayoutFault;
use crate::checks::{check_all_marked, mark_words};
use crate::named::named_words;
use crate::nets::{latch_outputs, output_nets};
use crate::taken::taken_words;
use crate::types::Layout;
use blif_read::Model;
use elaborated::Elaborated;
use imp_text::{Name, NameId, Names};
use settings::Settings;
use std::alloc::Global;

// The words over some nets: those of the names that are listed, or k nets at a time in order.
fn found_words(
    alloc: Global,
    names: &Names,
    nets: &[NameId],
    listed: &Option<Vec<Vec<Name>>>,
    k: u8,
) -> Result<Vec<Vec<u32>>, LayoutFault>
    requires ids { All (IsIdOf names.now) nets.now }
    requires few { length nets.now < 2 ^ 32 }
    requires places { 1 ≤ k }
    ensures ok { IfOk result (λ words. AreFound k (map (name_at names.now) nets.now) (option_map named_in listed.now) (words_in words.items)) }
    ensures fault { IfErr result (λ fault. IsFault (as_fault (λ n. no_such_net n)
        (unknown_name (map (name_at names.now) nets.now) (option_map named_in listed.now))) (fault_of fault)) }
{
    match listed {
        Some(words) => named_words(alloc, names, nets, words),
        None => Ok(taken_words(alloc, nets.len() as u32, u32::from(k))?),
    }
}

// Tests that each latch stands in one state word, and each output in one output word. All that stand in two words are told
// before those that stand in none.
fn check_words(
    alloc: Global,
    names: &Names,
    latches: &[NameId],
    outputs: &[NameId],
    l: &Layout,
) -> Result<(), LayoutFault>
    requires latches { All (IsIdOf names.now) latches.now }
    requires outputs { All (IsIdOf names.now) outputs.now }
    requires distinct_latches { IsTrue (are_distinct (map (name_at names.now) latches.now)) }
    requires distinct_outputs { IsTrue (are_distinct (map (name_at names.now) outputs.now)) }
    requires state { AllByRecursion (λ i. i < length latches.now) (all_numbers l.now.state) }
    requires output { AllByRecursion (λ i. i < length outputs.now) (all_numbers l.now.output) }
    ensures once { OnOk result (ComesOnce (map (name_at names.now) latches.now) (map (name_at names.now) outputs.now) l.now) }
    ensures fault { IfErr result (λ fault.
        IsFault (once_fault (map (name_at names.now) latches.now) (map (name_at names.now) outputs.now) l.now) (fault_of fault)) }
{
    let stored = mark_words(alloc, names, latches, &l.state)?;
    let shown = mark_words(alloc, names, outputs, &l.output)?;
    check_all_marked(alloc, names, latches, &stored)?;
    check_all_marked(alloc, names, outputs, &shown)?;
    Ok(())
}

// The words over latches and outputs of these names, and the first fault of the settings where they have one.
fn words_over(
    alloc: Global,
    names: &Names,
    latches: &[NameId],
    outputs: &[NameId],
    s: &Settings,
) -> Result<Layout, LayoutFault>
    requires latches { All (IsIdOf names.now) latches.now }
    requires outputs { All (IsIdOf names.now) outputs.now }
    requires distinct_latches { IsTrue (are_distinct (map (name_at names.now) latches.now)) }
    requires distinct_outputs { IsTrue (are_distinct (map (name_at names.now) outputs.now)) }
    requires few_latches { length latches.now < 2 ^ 32 }
    requires few_outputs { length outputs.now < 2 ^ 32 }
    ensures ok { IfOk result (λ l. IsLayoutOver (map (name_at names.now) latches.now) (map (name_at names.now) outputs.now) s.now l) }
    ensures state { IfOk result (λ l. IsPartition (length (map (name_at names.now) latches.now)) (data_places s.now.code) l.state) }
    ensures output { IfOk result (λ l. IsPartition (length (map (name_at names.now) outputs.now)) (data_places s.now.code) l.output) }
    ensures no_fault { OnOk result (layout_fault_over (map (name_at names.now) latches.now) (map (name_at names.now) outputs.now) s.now ≡ None) }
    ensures fault { IfErr result (λ fault.
        IsFault (layout_fault_over (map (name_at names.now) latches.now) (map (name_at names.now) outputs.now) s.now) (fault_of fault)) }
{
    let k = s.code.k();
    let state = found_words(alloc, names, latches, &s.state_words, k)?;
    let output = found_words(alloc, names, outputs, &s.output_words, k)?;
    let l = Layout { state, output };
    check_words(alloc, names, latches, outputs, &l)?;
    Ok(l)
}

/// The words over the latches and over the outputs of a source that its settings ask for: those of the names that they
/// list, or else as many places at a time as the code has rows, in the order of the lines. All names that are no net are
/// told before those that stand twice, and these before nets that stand in no word.
pub fn layout(alloc: Global, e: &Elaborated, s: &Settings) -> Result<Layout, LayoutFault>
    ensures ok { IfOk result (λ l. IsLayoutOver e.now.latch_names e.now.output_names s.now l) }
    ensures state { IfOk result (λ l. IsPartition (length e.now.latch_names) (data_places s.now.code) l.state) }
    ensures output { IfOk result (λ l. IsPartition (length e.now.output_names) (data_places s.now.code) l.output) }
    ensures no_fault { OnOk result (layout_fault_over e.now.latch_names e.now.output_names s.now ≡ None) }
    ensures fault { IfErr result (λ fault. IsFault (layout_fault_over e.now.latch_names e.now.output_names s.now) (fault_of fault)) }
{
    words_over(alloc, &e.names, &e.latch_names, &e.output_names, s)
}

/// The same over the latches and the outputs of a model that was read. Those of the main model of a sound source have
/// distinct names, and there are at most 4096 of each.
pub fn layout_of(alloc: Global, m: &Model, s: &Settings) -> Result<Layout, LayoutFault>
    requires ids { HasIds m.now }
    requires distinct_latches { IsTrue (are_distinct (latch_outputs_of (model_of m.now))) }
    requires distinct_outputs { IsTrue (are_distinct (output_nets_of (model_of m.now))) }
    requires few_latches { length (latch_outputs_of (model_of m.now)) ≤ 4096 }
    requires few_outputs { length (output_nets_of (model_of m.now)) ≤ 4096 }
    ensures ok { IfOk result (λ l. IsLayout (model_of m.now) s.now l) }
    ensures state { IfOk result (λ l. IsPartition (length (latch_outputs_of (model_of m.now))) (data_places s.now.code) l.state) }
    ensures output { IfOk result (λ l. IsPartition (length (output_nets_of (model_of m.now))) (data_places s.now.code) l.output) }
    ensures no_fault { OnOk result (layout_fault (model_of m.now) s.now ≡ None) }
    ensures fault { IfErr result (λ fault. IsFault (layout_fault (model_of m.now) s.now) (fault_of fault)) }
{
    let latches = latch_outputs(alloc, m)?;
    let outputs = output_nets(alloc, m)?;
    words_over(alloc, &m.names, &latches, &outputs, s)
}
