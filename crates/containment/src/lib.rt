//! Few faulty cells do no harm to a guard: what is known of the cells of one cycle carries to all runs.
#![tactic(auto)]

ghost use Rattle.std.specs.Prelude.{◌≡◌, ◌≢◌, ℕ, ◌+◌, ◌*◌, ◌<◌, ◌≤◌, Bool, List, Option, false, length, slice_index_or, Some};
ghost use Rattle.std.specs.List.{AllByRecursion};
ghost use Rattle.netlist_spec.specs.CellBits.{Bit, output_bit};
ghost use Rattle.guard_spec.specs.Codes.{Code, IsCode, IsDistance, Mode, correct, detect};
ghost use Rattle.guard_spec.specs.Contained.{IsDetected, IsRightAt, IsWholeAt};
ghost use Rattle.guard_spec.specs.Containment.{IsGuard, IsGuardFor, IsGuardWithin};
ghost use Rattle.guard_spec.specs.Count.{IsNear, StateWordsAre};
ghost use Rattle.netlist_spec.specs.Covers.{Library};
ghost use Rattle.guard_spec.specs.Dual.{IsDualGuard};
ghost use Rattle.netlist_spec.specs.Elaborated.{IsMachineOf};
ghost use Rattle.netlist_spec.specs.Gates.{ForcedNets, GateValues, IsMachine, Machine, NetFault};
ghost use Rattle.netlist_spec.specs.Models.{main_model};
ghost use Rattle.netlist_spec.specs.Netlist.{File, Model, Name};
ghost use Rattle.guard_spec.specs.Rails.{RailsTell};
ghost use Rattle.guard_spec.specs.Regions.{CoversGates, Guarded, HaveOwnNets, IsCellOf, IsUntouched};
ghost use Rattle.netlist_spec.specs.Runs.{Fault, IsMoving, IsSteady, IsWithin};
ghost use Rattle.netlist_spec.specs.SourceRun.{Bits};
ghost use Rattle.guard_spec.specs.Tally.{outcome_of};
ghost use Rattle.guard_spec.specs.Words.{AreWords, IsLayout, IsPartition, Layout, Settings, Words};
ghost use Rattle.netlist_spec.specs.Written.{Named, file_of};
ghost use Rattle.containment.specs.Built.{IsBuilt, IsCoded, IsCodedGuard, IsFarTellingGuard, IsTellingGuard};
ghost use Rattle.containment.specs.Cycles.{AreAmong, IsCycle, IsWrongInFew, shown_state};
ghost use Rattle.containment.specs.Far.{ContainsTwiceOnGates};
ghost use Rattle.containment.specs.Nets.{AreMoving, AreSteady, AreWithin};
ghost use Rattle.containment.specs.OnGates.{CorrectsOnGates, DetectsOnGates, IsFaithfulOnGates};
ghost use Rattle.containment.specs.OneCycle.{AlarmsInOneCycle, DetectsInOneCycle, WordsTell};
ghost use Rattle.containment.specs.Outcomes.{DecodesInAll, HasCleanTallies, HaveOutputs, IsContained, TalliesAgree};
ghost use Rattle.containment.specs.RegionAnswers.{RegionsDecide, UntouchedRegionsAnswer};
ghost use Rattle.containment.specs.Texts.{KeepsAsText};
ghost use Rattle.containment.specs.Written.{IsBuiltDualText, IsBuiltText, IsNamedGuard, IsSeparateText, IsWellNamed, IsWritten, StandsForGates, machine_of, net_of};

/// The words that settings ask for are a partition, and those of a source's layout are words of its machine.
pub fn layouts_are_partitions()
    ensures words { (k : ℕ) (nets : List Name) (named : Option (List (List Name))) (words : Words)
        → 1 ≤ k → AreWords k nets named words → IsPartition (length nets) k words }
    ensures coded { (file : File) (library : Library) (m : Model) (machine : Machine) (s : Settings) (l : Layout) (d : ℕ)
        → IsMachineOf file library m machine → IsLayout m s l → IsCode s.code
        → IsDistance s.code d → IsCoded machine s.code d l }
{}

/// A cell belongs to one bit.
pub fn cells_have_one_bit()
    ensures { (g : Guarded) → IsMachine g.machine → CoversGates g → (a b : Bit) (n : ℕ)
        → IsCellOf g a n → IsCellOf g b n → a ≡ b }
{}

/// A latch that is not faulty shows its stored bit, so a faulty one shows a wrong bit in its own place alone.
pub fn latches_show_what_they_store()
    ensures { (g : Guarded) (stored x : Bits) (faults : ForcedNets) (v : ℕ → Bool)
        → GateValues g.machine stored x faults v → (k : ℕ) → k < length g.machine.latches
        → AllByRecursion (λ (e : ℕ × Bool). e.0 ≢ g.machine.inputs + k) faults
        → slice_index_or (shown_state g v) k false ≡ slice_index_or stored k false }
{}

/// In a region of which no cell is faulty each gate has its answer. So a guard keeps its bits and its rails tell, where
/// each region gives the right value in every valuation in which its own gates have their answers.
pub fn regions_answer_alone()
    ensures answers { (g : Guarded) (stored x : Bits) (faults : ForcedNets) (v : ℕ → Bool)
        → GateValues g.machine stored x faults v → UntouchedRegionsAnswer g faults v }
    ensures decide { (g : Guarded) (source : Machine) → HaveOwnNets g source → RegionsDecide g source }
    ensures no_rails { (g : Guarded) (code : Code) (l : Layout) (p : ℕ) → g.rails ≡ 0
        → RailsTell g code l p }
{}

/// Where the faulty cells of a cycle are among some cells, and the shown state words are near, the stored bits and
/// each output word are at most as many places apart from the right ones as there are such cells.
pub fn few_cells_turn_few_bits()
    ensures { (g : Guarded) (source : Machine) (code : Code) (d : ℕ) (mode : Mode) (radius : ℕ) (l : Layout)
        → IsCodedGuard g source code d mode radius l
        → (cells : List ℕ) (x s y next stored : Bits) (faults : ForcedNets) (v : ℕ → Bool)
        → IsCycle g source cells x s y next stored faults v
        → StateWordsAre code (IsNear code mode radius s) l.state (shown_state g v) 0
        → IsWrongInFew g code l (length source.outputs) (length cells) y next v }
{}

/// Among more rails than cells to blame, one has no faulty cell.
pub fn some_rail_is_untouched()
    ensures { (g : Guarded) (first : ℕ) → IsMachine g.machine → CoversGates g
        → length g.machine.outputs ≡ first + g.rails → (cells : List ℕ) → length cells < g.rails
        → (faults : ForcedNets) → AreAmong cells faults → (i : ℕ) × (first ≤ i)
        × (i < first + g.rails) × IsUntouched g faults (output_bit i) }
{}

/// One cycle in detection. State words less than d places apart from the right ones are right, or one of them is no
/// codeword, and so are output words. Where some word is no codeword, a rail is up. So with fewer faulty cells than d
/// and than rails, every output word is whole and few next stored bits are wrong, or a rail is up.
pub fn one_cycle_detects()
    ensures words { (code : Code) (d : ℕ) → IsCode code → IsDistance code d → WordsTell code d }
    ensures alarm { (g : Guarded) (source : Machine) (code : Code) (mode : Mode) (radius : ℕ) (l : Layout)
        → IsBuilt g source code mode radius l → RailsTell g code l (length source.outputs)
        → AlarmsInOneCycle g source code l }
    ensures cycle { (g : Guarded) (source : Machine) (code : Code) (d radius : ℕ) (l : Layout)
        → IsTellingGuard g source code d detect radius l → DetectsInOneCycle g source code d l }
{}

/// Without faults a guard gives the source's outputs and no alarm, in both modes, whether it has no rails or its
/// rails tell of words that are no codewords, or of words that are far from every codeword.
pub fn guards_are_faithful()
    ensures told { (g : Guarded) (source : Machine) (code : Code) (d : ℕ) (mode : Mode) (radius : ℕ) (l : Layout)
        → IsTellingGuard g source code d mode radius l → IsFaithfulOnGates g source code l }
    ensures silent { (g : Guarded) (source : Machine) (code : Code) (d : ℕ) (mode : Mode) (radius : ℕ) (l : Layout)
        → IsCodedGuard g source code d mode radius l → g.rails ≡ 0
        → IsFaithfulOnGates g source code l }
    ensures far { (g : Guarded) (source : Machine) (code : Code) (d : ℕ) (mode : Mode) (radius : ℕ) (l : Layout) (t : ℕ)
        → IsFarTellingGuard g source code d mode radius l t → IsFaithfulOnGates g source code l }
{}

/// With at most t faulty cells in one cycle, or of one set in any cycles, every output up to each cycle is right or
/// a rail is up by then. With at most t new ones in each cycle this takes a code of a distance above 2t.
pub fn guards_detect()
    ensures within { (g : Guarded) (source : Machine) (code : Code) (d t : ℕ) (l : Layout)
        → IsTellingGuard g source code d detect t l → t < d → t < g.rails
        → DetectsOnGates g source code l (AreWithin t) }
    ensures steady { (g : Guarded) (source : Machine) (code : Code) (d t : ℕ) (l : Layout)
        → IsTellingGuard g source code d detect t l → t < d → t < g.rails
        → DetectsOnGates g source code l (AreSteady t) }
    ensures moving { (g : Guarded) (source : Machine) (code : Code) (d t : ℕ) (l : Layout)
        → IsTellingGuard g source code d detect (2 * t) l → 2 * t < d → t < g.rails
        → DetectsOnGates g source code l (AreMoving t) }
{}

/// With at most t faulty cells in one cycle, or of one set in any cycles, every output word decodes to the source's,
/// is right in a cycle without faulty cells, and the stored bits are right after such a cycle. With at most t new ones
/// in each cycle the guard has to read its state within 2t.
pub fn guards_correct()
    ensures within { (g : Guarded) (source : Machine) (code : Code) (d t : ℕ) (l : Layout)
        → IsCodedGuard g source code d correct t l → 2 * t < d
        → CorrectsOnGates g source code l t (AreWithin t) }
    ensures steady { (g : Guarded) (source : Machine) (code : Code) (d t : ℕ) (l : Layout)
        → IsCodedGuard g source code d correct t l → 2 * t < d
        → CorrectsOnGates g source code l t (AreSteady t) }
    ensures moving { (g : Guarded) (source : Machine) (code : Code) (d t : ℕ) (l : Layout)
        → IsCodedGuard g source code d correct (2 * t) l → 2 * t < d
        → CorrectsOnGates g source code l t (AreMoving t) }
{}

/// A few faults of one cycle are faults of a few cells, so what holds for fixed sets of cells holds for them.
pub fn few_faults_of_one_cycle_are_steady()
    ensures text { (t : ℕ) (faults : List Fault) → IsWithin t faults → IsSteady t faults }
    ensures gates { (t : ℕ) (faults : List NetFault) → AreWithin t faults → AreSteady t faults }
{}

/// In a code of a distance above t + s, a guard that reads its state within t, with more than s rails that tell of
/// words far from every codeword, corrects t faulty cells, and tells of s.
pub fn guards_correct_and_tell()
    ensures { (g : Guarded) (source : Machine) (code : Code) (d t s : ℕ) (l : Layout)
        → IsFarTellingGuard g source code d correct t l t → t ≤ s → t + s < d → s < g.rails
        → ContainsTwiceOnGates g source code l t s }
{}

/// The runs of the file that a gate list with names is written as are runs of the gate list, under the same faults.
pub fn written_files_run_as_gates()
    ensures runs { (g : Named) → IsWellNamed g → IsWritten (file_of g) (machine_of g) (net_of g) }
    ensures stands { (n : Named) (source : File) (library : Library) (m : Model) (machine : Machine) (g : Guarded)
        → IsWellNamed n → machine_of n ≡ g.machine → main_model source ≡ Some m
        → IsMachineOf source library m machine
        → StandsForGates (file_of n) source library m machine g }
{}

/// The text of a gate list with separate regions is independent, its cells stand in the order of their bits, and what its
/// rails tell on gates they tell on the text.
pub fn separate_texts_are_independent()
    ensures { (n : Named) (g : Guarded) (source : Machine) → IsNamedGuard n g source → IsSeparateText n g }
{}

/// The text of a guard is faithful to the source, and contains faults, where its gate list does so for the machine of
/// the source.
pub fn texts_keep_what_gates_keep()
    ensures { (text source : File) (library : Library) (m : Model) (machine : Machine) (g : Guarded) (code : Code) (l : Layout)
        → StandsForGates text source library m machine g
        → KeepsAsText text source library m machine g code l }
{}

/// The text of a gate list that was built for a source is a guard of the source, for faults of one cycle and for fixed
/// sets of cells; and for new ones in each cycle where it reads its state within twice the bound. With far rails it
/// corrects faults and tells of more.
pub fn built_texts_are_guards()
    ensures within { (text source : File) (s : Settings) → IsBuiltText text source s s.bound
        → IsGuardWithin text source s }
    ensures steady { (text source : File) (s : Settings) → IsBuiltText text source s s.bound
        → IsGuard text source s (IsSteady s.bound) }
    // The guard has the models and the words of the built text, so what is known of them is known of it.
    ensures shaped { (text source : File) (s : Settings) (built : IsBuiltText text source s s.bound)
        → (guard : IsGuard text source s (IsSteady s.bound)) × (guard.shaped ≡ built.shaped) }
    ensures moving { (text source : File) (s : Settings) → IsBuiltText text source s (2 * s.bound)
        → IsGuardFor text source s (2 * s.bound) (IsMoving s.bound) }
    ensures dual { (text source : File) (settings : Settings) (s : ℕ)
        → IsBuiltDualText text source settings s → IsDualGuard text source settings s }
{}

/// Where each output word is whole the source's outputs are right. A contained run is sorted as right or alarmed in
/// detection and as right or decoded in correction, and never as wrong.
pub fn contained_runs_are_not_wrong()
    ensures right { (code : Code) (l : Layout) (p k : ℕ) (y z : Bits) → IsPartition p k l.output
        → length y ≡ p → p ≤ length z → IsWholeAt code l p y z → IsRightAt p y z }
    ensures detect { (code : Code) (l : Layout) (p k t : ℕ) (ys zs : List Bits)
        → IsPartition p k l.output → HaveOutputs p ys zs → IsDetected code l p (length ys) ys zs
        → IsContained detect (outcome_of code l p detect t ys zs) }
    ensures correct { (code : Code) (l : Layout) (p t : ℕ) (ys zs : List Bits)
        → DecodesInAll code l p t ys zs → IsContained correct (outcome_of code l p correct t ys zs) }
{}

/// The tally of single faults in one cycle of a guard has no wrong runs, none decoded in detection, and none alarmed in
/// correction. The tally beside the machine of a source is that beside the source.
pub fn campaigns_find_nothing_wrong()
    ensures within { (g source : File) (s : Settings) (guard : IsGuardWithin g source s)
        → IsCode s.code → 1 ≤ s.bound → HasCleanTallies g source s guard.shaped.layout }
    ensures steady { (g source : File) (s : Settings) (guard : IsGuard g source s (IsSteady s.bound))
        → IsCode s.code → 1 ≤ s.bound → HasCleanTallies g source s guard.shaped.layout }
    ensures moving { (g source : File) (s : Settings) (radius : ℕ) (guard : IsGuardFor g source s radius (IsMoving s.bound))
        → IsCode s.code → 1 ≤ s.bound → HasCleanTallies g source s guard.shaped.layout }
    ensures machine { (g source : File) (s : Settings) (m : Model) (machine : Machine) (l : Layout)
        → main_model source ≡ Some m → IsMachineOf source s.library m machine
        → TalliesAgree g source s machine l }
{}
