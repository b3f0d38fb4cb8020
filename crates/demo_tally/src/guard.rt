// The guard of the design.
ghost use Rattle.std.specs.Prelude.{◌≡◌, ℕ, ◌≤◌, All, IfOk};
ghost use Rattle.netlist_spec.specs.FileRules.{IsFile};
ghost use Rattle.guard_spec.specs.Codes.{IsDistance, needed_distance};
ghost use Rattle.blif_read.specs.Ids.{HasIds};
ghost use Rattle.blif_read.specs.View.{file_of};
ghost use Rattle.program_spec.specs.Demo.{demo_settings};
ghost use Rattle.demo_laws.specs.DemoFile.{demo_file};
ghost use Rattle.demo_design.specs.Design.{IsWholeDesign};
ghost use Rattle.guard_source.specs.Made.{IsGuardMade};

use blif_read::File;
use demo_laws::demo_is_laid_out;
use encode_state::LayoutFault;
use guard_source::{GuardFault, SourceGuard, guard_source};
use settings::Settings;
use source_check::ElabFault;
use std::alloc::{AllocError, Global};

/// The guard of a design by its settings. None of the steps refuses it.
pub(crate) fn guard_design(
    alloc: Global,
    file: File,
    s: &Settings,
) -> Result<SourceGuard, AllocError>
    requires ids { All HasIds file.models.items }
    requires is_file { IsFile (file_of file) }
    requires settings { s.now ≡ demo_settings }
    requires design { (n : ℕ) × IsWholeDesign n × (file_of file ≡ demo_file n) }
    ensures { IfOk result (λ g. IsGuardMade (file_of file) s.now g.named g.machine g.layout) }
{
    demo_is_laid_out();
    match guard_source(alloc, file, s) {
        Ok(guard) => Ok(guard),
        Err(
            GuardFault::NoMemory
            | GuardFault::Elab(ElabFault::NoMemory)
            | GuardFault::Words(LayoutFault::NoMemory),
        ) => Err(AllocError),
        Err(_) => unreachable!(),
    }
}
