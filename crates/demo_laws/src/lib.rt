//! Laws of the demo design, of each size from 1 to 64.
#![tactic(auto)]

ghost use Rattle.std.specs.Prelude.{◌≡◌, ℕ, List, Ok};
ghost use Rattle.guard_spec.specs.Codes.{IsDistance, needed_distance, hamming_code};
ghost use Rattle.program_spec.specs.Demo.{demo_settings};
ghost use Rattle.guard_spec.specs.SettingsFile.{IsSettings, settings_of_bytes};
ghost use Rattle.program_spec.specs.Walk.{Contents};
ghost use Rattle.guard_spec.specs.Words.{Layout};
ghost use Rattle.demo_laws.specs.DemoFiles.{demo_settings_text};
ghost use Rattle.demo_laws.specs.DemoLaws.{DemoHasCost, DemoHasCounts, DemoHasOneLayout, DemoHasPlainSize, DemoHasPorts, DemoHasStimulus, DemoIsAccepted, DemoIsLaidOut, DemoIsRead, DemoIsShort, DemoIsSound, DemoTextsAreAccepted};

/// The demo design is sound with its library, and has 13 n statements, 4 n of them latches.
pub fn demo_is_sound()
    ensures sound { (n : ℕ) → DemoIsSound n }
    ensures counts { (n : ℕ) → DemoHasCounts n }
    ensures cost { (n : ℕ) → DemoHasCost n }
{}

/// The plain size of the guard of the demo design is 4720 n + 4.
pub fn demo_has_plain_size()
    ensures { (n : ℕ) → DemoHasPlainSize n }
{}

/// The words of the demo design are taken four at a time, and its code has the distance that the bound asks for.
pub fn demo_is_laid_out()
    ensures words { (n : ℕ) → DemoIsLaidOut n }
    ensures one { (n : ℕ) (l : Layout) → DemoHasOneLayout n l }
    ensures distance { IsDistance hamming_code 4 }
    ensures strong { needed_distance demo_settings.mode demo_settings.bound ≡ 4 }
{}

/// The netlist of the demo design is read as its file.
pub fn demo_is_read()
    ensures { (n : ℕ) → DemoIsRead n }
{}

/// A settings text that reads as the settings of the demo design, and its netlist, are a pair that `guard` accepts.
pub fn demo_is_accepted()
    ensures pair { (n : ℕ) (contents : Contents) (settings netlist text : List ℕ) → DemoIsAccepted n contents settings netlist text }
    ensures texts { (n : ℕ) (contents : Contents) (settings netlist : List ℕ) → DemoTextsAreAccepted n contents settings netlist }
    ensures short { (n : ℕ) → DemoIsShort n }
{}

/// The settings of the demo design have a text, and its stimulus is read as its stream.
pub fn demo_files_are_read()
    ensures settings { settings_of_bytes demo_settings_text ≡ Ok demo_settings }
    ensures are_settings { IsSettings demo_settings }
    ensures ports { (n : ℕ) → DemoHasPorts n }
    ensures stimulus { (n : ℕ) → DemoHasStimulus n }
{}
