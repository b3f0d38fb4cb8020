// The guard of a source.
ghost use Rattle.std.specs.Prelude.{◌≡◌, ℕ, ◌≤◌, List, Ok, All, IfErr, IfOk, IfSome, OnOk};
ghost use Rattle.netlist_spec.specs.FileRules.{IsFile};
ghost use Rattle.netlist_spec.specs.Reads.{Reads};
ghost use Rattle.netlist_spec.specs.Runs.{IsSteady};
ghost use Rattle.netlist_spec.specs.Sound.{IsSound};
ghost use Rattle.netlist_spec.specs.Text.{text_of};
ghost use Rattle.netlist_spec.specs.Written.{file_of as written_file};
ghost use Rattle.guard_spec.specs.Codes.{IsDistance, needed_distance};
ghost use Rattle.guard_spec.specs.SettingsFile.{settings_of_bytes};
ghost use Rattle.guard_text_spec.specs.GuardText.{IsGuardText};
ghost use Rattle.blif_read.specs.Ids.{HasIds};
ghost use Rattle.blif_read.specs.View.{file_of};
ghost use Rattle.source_check.specs.Checked.{IsChecked};
ghost use Rattle.guard_source.specs.Accepted.{IsRefusedGuard, IsSmall};
ghost use Rattle.guard_source.specs.Faults.{refusal_of};
ghost use Rattle.guard_source.specs.Made.{IsGuardMade};
ghost use Rattle.guard_source.specs.Settled.{IsSettled};

use crate::GuardFault;
use crate::gates::build_for;
use blif_read::File;
use elaborate::elaborate_checked;
use encode_state::layout_of;
use encode_state::types::Layout;
use gate_net::Machine;
use guard_laws::machines_cost_no_more;
use guard_names::{name_guard, steps_make_a_guard};
use named_netlist::Named;
use plain_size::size_of_checked;
use settings::Settings;
use size_laws::machines_have_one_size;
use source_check::{Checked, check};
use std::alloc::{AllocError, Global};

/// A guard of a source: its gate list with names, the machine that the source is elaborated to, and the words.
#[derive(Drop)]
pub struct SourceGuard {
    pub named: Named,
    pub machine: Machine,
    pub layout: Layout,
}

/// The guard of a source, or the first refusal of the source with its settings. The code of the settings is strong enough.
pub fn guard_source(alloc: Global, file: File, s: &Settings) -> Result<SourceGuard, GuardFault>
    requires ids { All HasIds file.models.items }
    requires is_file { IsFile (file_of file) }
    requires strong { (d : ℕ) × IsDistance s.now.code d × (needed_distance s.now.mode s.now.bound ≤ d) }
    ensures small { OnOk result (IsSmall (file_of file) s.now) }
    // The text that it is written as is one of a guard of the source by these settings.
    ensures guard { IfOk result (λ g. (settings netlist : List ℕ)
        → settings_of_bytes settings ≡ Ok s.now → Reads netlist (file_of file)
        → IsGuardText settings netlist (text_of g.named.unknown_inits (written_file g.named)) (λ t. IsSteady t)) }
    ensures made { IfOk result (λ g. IsGuardMade (file_of file) s.now g.named g.machine g.layout) }
    ensures refused { IfErr result (λ fault. IfSome (refusal_of fault) (IsRefusedGuard (file_of file) s.now)) }
{
    let checked = check(alloc, &file, &s.tables, &s.linears)?;
    let l = settle_words(alloc, &file, &checked, s)?;
    let g = make(alloc, file, &checked, s, l)?;
    Ok(g)
}

// The words that the settings ask for, where they fit and the plain size of the guard is at most 1,000,000.
fn settle_words(
    alloc: Global,
    file: &File,
    checked: &Checked,
    s: &Settings,
) -> Result<Layout, GuardFault>
    requires ids { All HasIds file.now.models.items }
    requires is_file { IsFile (file_of file.now) }
    requires sound { IsSound (file_of file.now) s.now.library }
    requires checked { IsChecked (file_of file.now) s.now.library checked.now }
    ensures settled { IfOk result (λ l. IsSettled (file_of file.now) s.now l) }
    ensures refused { IfErr result (λ fault. IfSome (refusal_of fault) (IsRefusedGuard (file_of file.now) s.now)) }
{
    let l = layout_of(alloc, &file.models[0], s)?;
    match size_of_checked(alloc, file, checked, s, &l)? {
        Some(_) => Ok(l),
        None => Err(GuardFault::TooLarge),
    }
}

// The guard, over these words.
fn make(
    alloc: Global,
    file: File,
    checked: &Checked,
    s: &Settings,
    layout: Layout,
) -> Result<SourceGuard, AllocError>
    requires ids { All HasIds file.models.items }
    requires is_file { IsFile (file_of file) }
    requires strong { (d : ℕ) × IsDistance s.now.code d × (needed_distance s.now.mode s.now.bound ≤ d) }
    requires checked { IsChecked (file_of file) s.now.library checked.now }
    requires settled { IsSettled (file_of file) s.now layout }
    ensures guard { IfOk result (λ g. (settings netlist : List ℕ)
        → settings_of_bytes settings ≡ Ok s.now → Reads netlist (file_of file)
        → IsGuardText settings netlist (text_of g.named.unknown_inits (written_file g.named)) (λ t. IsSteady t)) }
    ensures made { IfOk result (λ g. IsGuardMade (file_of file) s.now g.named g.machine g.layout) }
{
    machines_have_one_size();
    machines_cost_no_more();
    steps_make_a_guard();
    let e = elaborate_checked(alloc, file, &s.tables, &s.linears, checked)?;
    let nets = build_for(alloc, &e.machine, &layout, s)?;
    let (named, machine) = name_guard(alloc, nets, e, &layout, &s.code)?;
    Ok(SourceGuard {
        named,
        machine,
        layout,
    })
}
