// From what the steps to a guard promise to the text of a guard.
ghost use Rattle.std.specs.Prelude.{◌≡◌, ℕ, ◌≤◌, List, Ok, Some, length};
ghost use Rattle.netlist_spec.specs.Elaborated.{Elaborated, IsElaborated};
ghost use Rattle.netlist_spec.specs.Models.{main_model};
ghost use Rattle.netlist_spec.specs.Netlist.{File, Model};
ghost use Rattle.netlist_spec.specs.Reads.{Reads};
ghost use Rattle.netlist_spec.specs.Runs.{IsSteady};
ghost use Rattle.netlist_spec.specs.Text.{text_of};
ghost use Rattle.netlist_spec.specs.Written.{IsNamed, Named, file_of};
ghost use Rattle.guard_spec.specs.Codes.{IsCode, IsDistance, data_places, needed_distance, rail_count};
ghost use Rattle.guard_spec.specs.Plain.{IsSizeWith};
ghost use Rattle.guard_spec.specs.Regions.{Guarded};
ghost use Rattle.guard_spec.specs.SettingsFile.{settings_of_bytes};
ghost use Rattle.guard_spec.specs.Words.{IsLayoutOver, IsPartition, Layout, Settings};
ghost use Rattle.guard_text_spec.specs.GuardText.{IsGuardText};
ghost use Rattle.guard_laws.specs.Named.{IsGuardNamed};
ghost use Rattle.guard_laws.specs.Promised.{IsGuardOf, cell_count};
ghost use Rattle.guard_laws.specs.Texts.{IsGuardFrom};

/// What the elaboration, the layout, the plain size, the builder and the naming promise is all that the text of a guard
/// asks. A guard that was built has at most the plain size, so it can be named where that is at most 1,000,000.
pub fn steps_make_a_guard()
    ensures cells { (source : File) (s : Settings) (radius size : ℕ) (m : Model) (e : Elaborated) (l : Layout) (g : Guarded)
        → IsElaborated source s.library m e → IsLayoutOver e.latch_names e.output_names s l
        → IsPartition (length e.latch_names) (data_places s.code) l.state
        → IsSizeWith source s.library m s.code s.mode radius (rail_count s.mode s.bound) l size
        → IsGuardOf g e.machine s.code s.mode radius (rail_count s.mode s.bound) l → cell_count g ≤ size }
    ensures guard { (source : File) (s : Settings) (radius d size : ℕ) (m : Model) (e : Elaborated) (l : Layout) (g : Guarded) (n : Named)
        → main_model source ≡ Some m → IsElaborated source s.library m e
        → IsCode s.code → IsDistance s.code d → needed_distance s.mode radius ≤ d
        → IsLayoutOver e.latch_names e.output_names s l
        → IsSizeWith source s.library m s.code s.mode radius (rail_count s.mode s.bound) l size
        → IsGuardOf g e.machine s.code s.mode radius (rail_count s.mode s.bound) l
        → IsNamed n → IsGuardNamed n g e s.code l → IsGuardFrom source s radius n }
    ensures text { (settings netlist : List ℕ) (source : File) (s : Settings) (d size : ℕ) (m : Model) (e : Elaborated) (l : Layout) (g : Guarded) (n : Named)
        → settings_of_bytes settings ≡ Ok s → Reads netlist source
        → main_model source ≡ Some m → IsElaborated source s.library m e
        → IsCode s.code → IsDistance s.code d → needed_distance s.mode s.bound ≤ d
        → IsLayoutOver e.latch_names e.output_names s l
        → IsSizeWith source s.library m s.code s.mode s.bound (rail_count s.mode s.bound) l size
        → IsGuardOf g e.machine s.code s.mode s.bound (rail_count s.mode s.bound) l
        → IsNamed n → IsGuardNamed n g e s.code l
        → IsGuardText settings netlist (text_of n.unknown_inits (file_of n)) (λ t. IsSteady t) }
{}
