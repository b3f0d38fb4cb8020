// Readers of texts of which it is known what they say. Want of memory is their one error.
ghost use Rattle.std.specs.Prelude.{◌≡◌, ◌<◌, ◌^◌, length, All, Ok, IfOk};
ghost use Rattle.netlist_spec.specs.FileRules.{IsFile};
ghost use Rattle.netlist_spec.specs.Netlist.{File as SpecFile};
ghost use Rattle.netlist_spec.specs.Reads.{Reads};
ghost use Rattle.netlist_spec.specs.SourceRun.{Stream};
ghost use Rattle.stimulus_spec.specs.Stimulus.{stimulus_of};
ghost use Rattle.guard_spec.specs.SettingsFile.{settings_of_bytes};
ghost use Rattle.guard_spec.specs.Words.{Settings as SpecSettings};
ghost use Rattle.blif_read.specs.Ids.{HasIds};
ghost use Rattle.blif_read.specs.View.{file_of};

use blif_read::{BlifFault, File};
use settings::{SetFault, Settings};
use sim_text::{StimFault, Stimulus};
use std::alloc::{AllocError, Global};

/// The settings that a text has.
pub(crate) fn read_settings(alloc: Global, text: &[u8]) -> Result<Settings, AllocError>
    requires { (s : SpecSettings) × (settings_of_bytes text.now ≡ Ok s) }
    ensures { IfOk result (λ s. settings_of_bytes text.now ≡ Ok s) }
{
    match settings::read(alloc, text) {
        Ok(settings) => Ok(settings),
        Err(SetFault::NoMemory) => Err(AllocError),
        Err(_) => unreachable!(),
    }
}

/// The file that a netlist says.
pub(crate) fn read_netlist(alloc: Global, text: &[u8]) -> Result<File, AllocError>
    requires short { length text.now < 2 ^ 32 }
    requires reads { (file : SpecFile) × Reads text.now file }
    ensures reads { IfOk result (λ file. Reads text.now (file_of file)) }
    ensures is_file { IfOk result (λ file. IsFile (file_of file)) }
    ensures ids { IfOk result (λ file. All HasIds file.models.items) }
{
    match blif_read::read(alloc, text) {
        Ok(file) => Ok(file),
        Err(BlifFault::NoMemory) => Err(AllocError),
        Err(_) => unreachable!(),
    }
}

/// The stream of so many inputs that a stimulus says.
pub(crate) fn read_stimulus(alloc: Global, text: &[u8], inputs: u32) -> Result<Stimulus, AllocError>
    requires short { length text.now < 2 ^ 32 }
    requires stream { (xs : Stream) × (stimulus_of inputs text.now ≡ Ok xs) }
    ensures stream { IfOk result (λ s. stimulus_of inputs text.now ≡ Ok s.cycles) }
    ensures inputs { IfOk result (λ s. s.inputs ≡ inputs) }
{
    match Stimulus::read(alloc, text, inputs) {
        Ok(stimulus) => Ok(stimulus),
        Err(StimFault::NoMemory) => Err(AllocError),
        Err(StimFault::BadStimulus(_)) => unreachable!(),
    }
}
