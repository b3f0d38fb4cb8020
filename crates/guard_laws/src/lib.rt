//! From what the builder and the naming of a guard promise to a guard of the source.
#![tactic(auto)]

ghost use Rattle.std.specs.Prelude.{◌≡◌, ◌↔◌, ℕ, ◌+◌, ◌<◌, ◌≤◌, ◌++◌, Bool, Contains, List, length, Ok};
ghost use Rattle.guard_spec.specs.Codes.{Code, IsCode, Mode, detect};
ghost use Rattle.netlist_spec.specs.Covers.{Library};
ghost use Rattle.netlist_spec.specs.Elaborated.{IsMachineOf};
ghost use Rattle.netlist_spec.specs.Gates.{GateForm, GateList, Machine};
ghost use Rattle.netlist_spec.specs.Netlist.{File, Model};
ghost use Rattle.guard_spec.specs.Plain.{IsMachineSizeWith, IsSizeWith};
ghost use Rattle.guard_spec.specs.Rails.{RailsTell, SomeNoCodeword, SomeFarWord};
ghost use Rattle.guard_spec.specs.Regions.{AreSeparate, CoversGates, Guarded};
ghost use Rattle.containment.specs.RegionAnswers.{RailsAnswer, RegionsAnswer, FarRailsAnswer};
ghost use Rattle.guard_laws.specs.Rows.{IsMadeOfRanges, IsRailRange, IsRangeOf, StandForLeaves};
ghost use Rattle.gate_net.specs.Words.{nets_of};
ghost use Rattle.alarm_rails.specs.Rail.{IsRail, SomeIsNone};
ghost use Rattle.guard_laws.specs.Watched.{watched_words};
ghost use Rattle.guard_laws.specs.Copies.{IsBitCheck, IsBitCopy, range_of};
ghost use Rattle.netlist_spec.specs.CellBits.{Bit};
ghost use Rattle.guard_spec.specs.Words.{IsPartition, Layout, Settings};
ghost use Rattle.netlist_spec.specs.Written.{Named, file_of};
ghost use Rattle.containment.specs.Built.{IsBuilt};
ghost use Rattle.containment.specs.Written.{IsBuiltText};
ghost use Rattle.guard_laws.specs.Promised.{IsGuardOf};
ghost use Rattle.guard_laws.specs.Texts.{IsGuardFrom};
ghost use Rattle.guard_laws.specs.Places.{AreDataPlaces, HavePlaces, latches_of_words};
ghost use Rattle.std.specs.List.{AllByRecursion, flat_map, range_with_len};
ghost use Rattle.guard_spec.specs.Containment.{IsGuard};
ghost use Rattle.guard_text_spec.specs.GuardText.{IsGuardText};
ghost use Rattle.netlist_spec.specs.Reads.{Reads};
ghost use Rattle.netlist_spec.specs.Runs.{IsSteady};
ghost use Rattle.guard_spec.specs.SettingsFile.{settings_of_bytes};
ghost use Rattle.netlist_spec.specs.Text.{text_of};
ghost use Rattle.guard_laws.specs.Within.{IsMadeWithin};

/// What each region answers alone, the guard keeps in every cycle.
pub fn built_guards_keep_their_bits()
    ensures built { (g : Guarded) (source : Machine) (code : Code) (mode : Mode) (radius rails : ℕ) (l : Layout)
        → IsGuardOf g source code mode radius rails l → IsBuilt g source code mode radius l }
    ensures tells { (g : Guarded) (source : Machine) (code : Code) (mode : Mode) (radius rails : ℕ) (l : Layout)
        → IsGuardOf g source code mode radius rails l → RailsTell g code l (length source.outputs) }
{}

/// The plain size of a guard of a machine is at most that of the source that the machine stands for.
pub fn machines_cost_no_more()
    ensures { (file : File) (library : Library) (m : Model) (machine : Machine) (code : Code) (mode : Mode) (radius rails k : ℕ) (l : Layout) (small large : ℕ)
        → IsMachineOf file library m machine → IsPartition (length machine.latches) k l.state
        → IsMachineSizeWith machine code mode radius rails l small
        → IsSizeWith file library m code mode radius rails l large → small ≤ large }
{}

/// The text of a guard that was built and named for a source is the text of a gate list that was built for it. So it
/// meets every premise of the laws of `containment`.
pub fn named_guards_are_built_texts()
    ensures built { (source : File) (s : Settings) (radius : ℕ) (n : Named)
        → IsGuardFrom source s radius n → IsBuiltText (file_of n) source s radius }
    ensures guard { (source : File) (s : Settings) (n : Named)
        → IsGuardFrom source s s.bound n → IsGuard (file_of n) source s (IsSteady s.bound) }
    ensures text { (settings netlist : List ℕ) (source : File) (s : Settings) (n : Named)
        → settings_of_bytes settings ≡ Ok s → Reads netlist source → IsGuardFrom source s s.bound n
        → IsGuardText settings netlist (text_of n.unknown_inits (file_of n)) (λ t. IsSteady t) }
{}

/// Ranges one behind the other, of which each reads and answers alone, cover the gates, are separate, and give what the
/// laws of containment ask of regions.
pub fn ranges_make_a_guard()
    ensures covers { (g : Guarded) (source : Machine) (code : Code) (l : Layout) (leaf watched : List ℕ)
        → IsMadeOfRanges g source code l leaf watched (SomeNoCodeword g code l (length source.outputs)) → CoversGates g }
    ensures separate { (g : Guarded) (source : Machine) (code : Code) (l : Layout) (leaf watched : List ℕ)
        → IsMadeOfRanges g source code l leaf watched (SomeNoCodeword g code l (length source.outputs)) → AreSeparate g }
    ensures answers { (g : Guarded) (source : Machine) (code : Code) (l : Layout) (leaf watched : List ℕ) (radius : ℕ)
        → IsMadeOfRanges g source code l leaf watched (SomeNoCodeword g code l (length source.outputs))
        → RegionsAnswer g source code detect radius l }
    ensures rails { (g : Guarded) (source : Machine) (code : Code) (l : Layout) (leaf watched : List ℕ)
        → IsMadeOfRanges g source code l leaf watched (SomeNoCodeword g code l (length source.outputs))
        → RailsAnswer g code l (length source.outputs) }
{}

/// Ranges one behind the other, of which each reads and answers alone, cover the gates, are separate, and give what the
/// laws of containment ask of regions, in either mode. Those of a guard in detection are such ranges.
pub fn ranges_within_make_a_guard()
    ensures covers { (g : Guarded) (source : Machine) (code : Code) (mode : Mode) (radius : ℕ) (l : Layout) (watched : List ℕ)
        → IsMadeWithin g source code mode radius l watched (SomeNoCodeword g code l (length source.outputs)) → CoversGates g }
    ensures separate { (g : Guarded) (source : Machine) (code : Code) (mode : Mode) (radius : ℕ) (l : Layout) (watched : List ℕ)
        → IsMadeWithin g source code mode radius l watched (SomeNoCodeword g code l (length source.outputs)) → AreSeparate g }
    ensures answers { (g : Guarded) (source : Machine) (code : Code) (mode : Mode) (radius : ℕ) (l : Layout) (watched : List ℕ)
        → IsMadeWithin g source code mode radius l watched (SomeNoCodeword g code l (length source.outputs)) → RegionsAnswer g source code mode radius l }
    ensures rails { (g : Guarded) (source : Machine) (code : Code) (mode : Mode) (radius : ℕ) (l : Layout) (watched : List ℕ)
        → IsMadeWithin g source code mode radius l watched (SomeNoCodeword g code l (length source.outputs))
        → RailsAnswer g code l (length source.outputs) }
    ensures detecting { (g : Guarded) (source : Machine) (code : Code) (radius : ℕ) (l : Layout) (leaf watched : List ℕ)
        → IsMadeOfRanges g source code l leaf watched (SomeNoCodeword g code l (length source.outputs))
        → IsMadeWithin g source code detect radius l watched (SomeNoCodeword g code l (length source.outputs)) }
    // With rails that tell of words far from every codeword.
    ensures far { (g : Guarded) (source : Machine) (code : Code) (mode : Mode) (radius t : ℕ) (l : Layout) (watched : List ℕ)
        → IsMadeWithin g source code mode radius l watched (SomeFarWord g code l (length source.outputs) t)
        → CoversGates g × AreSeparate g × RegionsAnswer g source code mode radius l × FarRailsAnswer g code l (length source.outputs) t }
{}

/// Copies of cones and check bits are such ranges, also where more gates stand behind them.
pub fn copies_are_ranges()
    ensures copy { (source : Machine) (code : Code) (l : Layout) (leaf : List ℕ) (bit : Bit) (old new : GateList) (last : ℕ) (more : List GateForm)
        → IsBitCopy source code l leaf bit old new last
        → IsRangeOf (record new { gates = new.gates ++ more }) leaf source code l (range_of bit old new) }
    ensures check { (source : Machine) (code : Code) (l : Layout) (leaf : List ℕ) (bit : Bit) (old new : GateList) (last : ℕ) (more : List GateForm)
        → IsBitCheck source code l leaf bit old new last
        → IsRangeOf (record new { gates = new.gates ++ more }) leaf source code l (range_of bit old new) }
{}

/// Where the places of words stand among the latches and the outputs of a guard.
pub fn words_have_places()
    ensures { (source : Machine) (code : Code) (l : Layout) → IsCode code → HavePlaces source code l }
{}

/// The data inputs and the data places of state words stand for the leaves of the source: where the state words are right
/// they have the bits of the inputs and of the source's state.
pub fn data_places_stand_for_leaves()
    ensures { (g : Guarded) (source : Machine) (code : Code) (l : Layout) (k : ℕ) (nets : List ℕ)
        → IsCode code → g.machine.net.leaves ≡ g.machine.inputs + length g.machine.latches
        → IsPartition (length source.latches) k l.state
        → length g.machine.latches ≡ latches_of_words code l.state
        → AreDataPlaces code l.state g.machine.inputs (length source.latches) nets
        → ((n : ℕ) → Contains (range_with_len 0 g.machine.inputs ++ nets) n → n < g.machine.net.leaves)
        → StandForLeaves g source code l (range_with_len 0 g.machine.inputs ++ nets) }
{}

/// A rail over the words that a guard shows is such a range, also where more gates stand behind it.
pub fn rails_are_ranges()
    ensures watched { (g : Guarded) (code : Code) (l : Layout) (p : ℕ) (v : ℕ → Bool)
        → latches_of_words code l.state ≡ length g.machine.latches
        → AllByRecursion (λ w. AllByRecursion (λ i. i < length g.machine.outputs) w) l.output
        → SomeIsNone code (watched_words g.machine code l p) v ↔ SomeNoCodeword g code l p v }
    ensures range { (g : Guarded) (code : Code) (l : Layout) (p : ℕ) (bit : Bit) (old new : GateList) (last : ℕ) (more : List GateForm)
        → latches_of_words code l.state ≡ length g.machine.latches
        → AllByRecursion (λ w. AllByRecursion (λ i. i < length g.machine.outputs) w) l.output
        → IsRail code (watched_words g.machine code l p) old new last
        → IsRailRange (record new { gates = new.gates ++ more }) (flat_map nets_of (watched_words g.machine code l p)) (SomeNoCodeword g code l p) (range_of bit old new) }
{}
