// The demo design, guarded and tried.
ghost use Rattle.std.specs.Prelude.{◌≡◌, IfOk};
ghost use Rattle.netlist_spec.specs.Runs.{IsSteady};
ghost use Rattle.program_spec.specs.CampaignText.{IsDemoText};
ghost use Rattle.demo_laws.specs.DemoLaws.{IsDemoSize};
ghost use Rattle.demo_tally.specs.Tried.{summary_text};

use crate::files::{read_netlist, read_settings, read_stimulus};
use crate::guard::guard_design;
use demo_design::demo_design;
use demo_laws::demo_is_accepted;
use guard_tally::{GuardTally, tallies_make_a_text, tally_guard};
use std::alloc::{AllocError, Global};

// The cycle in which faults are tried.
const CYCLE: u32 = 3;

/// What a demo prints: the statements, latches and plain size of its design, and the tally of its guard.
#[derive(Drop)]
pub struct DemoTally {
    pub statements: u32,
    pub latches: u32,
    pub plain: u32,
    pub tally: GuardTally,
}

/// Makes the design of a size from 1 to 64, guards it, and tries all single faults of cycle 3.
pub fn try_demo(alloc: Global, n: u32) -> Result<DemoTally, AllocError>
    requires { IsDemoSize n }
    ensures { IfOk result (λ d. IsDemoText n (summary_text d) (λ t. IsSteady t)) }
{
    demo_is_accepted();
    tallies_make_a_text();
    let design = demo_design(alloc, n)?;
    let settings = read_settings(alloc, &design.settings)?;
    let file = read_netlist(alloc, &design.netlist)?;
    let statements = file.models[0].statements.len() as u32;
    let guard = guard_design(alloc, file, &settings)?;
    let stimulus = read_stimulus(alloc, &design.stimulus, guard.machine.inputs)?;
    let tally = tally_guard(alloc, &guard, &settings, &stimulus, CYCLE)?;
    Ok(DemoTally {
        statements,
        latches: guard.machine.latches.len() as u32,
        plain: 4720 * n + 4,
        tally,
    })
}
