// The three files of the design.
ghost use Rattle.std.specs.Prelude.{◌≡◌, IfOk};
ghost use Rattle.program_spec.specs.Demo.{demo_netlist};
ghost use Rattle.demo_laws.specs.DemoFiles.{demo_settings_text, demo_stimulus};
ghost use Rattle.demo_laws.specs.DemoLaws.{IsDemoSize};
ghost use Rattle.demo_design.specs.Design.{AreRead, IsAcceptedPair, IsWholeDesign};

use crate::netlist_text::netlist_text;
use crate::settings_text::settings_text;
use crate::stimulus::stimulus_text;
use demo_laws::{
    demo_files_are_read, demo_has_plain_size, demo_is_accepted, demo_is_laid_out, demo_is_read,
    demo_is_sound,
};
use std::alloc::{AllocError, Global};

/// The texts of a design: a netlist in BLIF, its settings in TOML, and a stimulus of eight cycles.
#[derive(Debug, Drop)]
pub struct Demo {
    pub netlist: Vec<u8>,
    pub settings: Vec<u8>,
    pub stimulus: Vec<u8>,
}

/// The design of a size from 1 to 64: 4 n state bits, n S-boxes of the cipher PRESENT, and a move of bits as in that cipher.
pub fn demo_design(alloc: Global, n: u32) -> Result<Demo, AllocError>
    requires { IsDemoSize n }
    ensures netlist { IfOk result (λ d. d.netlist.items ≡ demo_netlist n) }
    ensures settings { IfOk result (λ d. d.settings.items ≡ demo_settings_text) }
    ensures stimulus { IfOk result (λ d. d.stimulus.items ≡ demo_stimulus n) }
    ensures read { IfOk result (λ d. AreRead n d.settings.items d.netlist.items d.stimulus.items) }
    ensures accepted { IfOk result (λ d. IsAcceptedPair d.settings.items d.netlist.items) }
    ensures design { IsWholeDesign n }
{
    demo_is_read();
    demo_files_are_read();
    demo_is_accepted();
    demo_is_sound();
    demo_is_laid_out();
    demo_has_plain_size();
    let netlist = netlist_text(alloc, n)?;
    let settings = settings_text(alloc)?;
    let stimulus = stimulus_text(alloc, n)?;
    Ok(Demo {
        netlist,
        settings,
        stimulus,
    })
}
