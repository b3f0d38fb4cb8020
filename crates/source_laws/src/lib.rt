//! Laws of sources with sub-models, library entries and statements in any order.
#![tactic(auto)]

ghost use Rattle.std.specs.Prelude.{ℕ, Bool, List, Option};
ghost use Rattle.netlist_spec.specs.Covers.{Library};
ghost use Rattle.netlist_spec.specs.Elaborated.{Elaborated};
ghost use Rattle.netlist_spec.specs.FileOrder.{Item};
ghost use Rattle.netlist_spec.specs.Fits.{Valuation};
ghost use Rattle.netlist_spec.specs.Gates.{AnswersWithin, GateList, Machine};
ghost use Rattle.netlist_spec.specs.Netlist.{Bind, File, Model, Name, Statement};
ghost use Rattle.netlist_spec.specs.SoundFaults.{SoundFault};
ghost use Rattle.netlist_spec.specs.SourceRun.{Bits, Stream};
ghost use Rattle.source_laws.specs.Agreement.{CyclesHaveAnOutcome, CyclesHaveOneOutcome, FittingValuationsAgree, SomeValuationFits, SoundModelsAreOrdered, SourcesHaveOneRun};
ghost use Rattle.source_laws.specs.Costs.{ConeIsDriverAndReads, ConesHaveOneCost, ConesOfGivenAreEmpty, GatesAreWithinCost, GatesCostNoMore, PlacedModelsCost, ReadsCompose, StandingIsKept};
ghost use Rattle.source_laws.specs.FileLines.{LaterLinesAreAbove, LeastLineIsFirst};
ghost use Rattle.source_laws.specs.Holding.{FitsWhereEachHolds, HoldingIsLocal};
ghost use Rattle.source_laws.specs.Lowered.{LoweredMachinesAreOfTheirSource};
ghost use Rattle.source_laws.specs.ModelGraph.{ChainsAreWithinLevels, ChainsBeginWithAStep, ContainsItselfByAStep, LevelsAreDepths, LevelsHaveNoRecursion, ReachedAreAll, UsedAreReached};
ghost use Rattle.source_laws.specs.Nets.{BitsOfFittingNetsFit, FittingMachinesHaveBits, Nets, NetsFitWhereEachHolds, NetsFitWithMoreGates, NetsHoldWithMoreGates, NetsHoldingIsLocal};
ghost use Rattle.source_laws.specs.Numbered.{NumberedMachinesAreOfTheirSource, NumberedSourcesAreElaborated};
ghost use Rattle.source_laws.specs.Settling.{DistinctNamesFit, FirstLeftIsFirstUnsettled, LeftOverNetsAreUnsettled, OrderedModelsHaveNoLoop, OrderedNetsSettle, OrderingStopsAtUnsettled, WalkedLoopIsTold};
ghost use Rattle.source_laws.specs.Tests.{DrivenWhereNoneUndriven, FirstFoundIsTold, OneDriverWhereNoneTwice, PassedFilesAreSound, PassedTestsFindNothing, PlacementsWherePortsAreGood};

/// Where the driver of each net of a list reads a net of the list, each of them is unsettled.
pub fn nets_left_over_are_unsettled()
    ensures { (file : File) (library : Library) (m : Model) (left : List Name) → LeftOverNetsAreUnsettled file library m left }
{}

/// Statements that read only given nets and nets of earlier ones drive settled nets. If all that combine are such, there
/// is no loop.
pub fn ordered_nets_settle()
    ensures settled { (file : File) (library : Library) (m : Model) (order : List Statement) → OrderedNetsSettle file library m order }
    ensures no_loop { (file : File) (library : Library) (m : Model) (order : List Statement) → OrderedModelsHaveNoLoop file library m order }
{}

/// Where ordering stops, the nets that are left over are the unsettled ones.
pub fn ordering_stops_at_unsettled_nets()
    ensures exact { (file : File) (library : Library) (m : Model) (order : List Statement) (left : List Name) → OrderingStopsAtUnsettled file library m order left }
    ensures first { (file : File) (library : Library) (m : Model) (left ns : List Name) (n : Name) → FirstLeftIsFirstUnsettled file library m left ns n }
{}

/// A walk along the nets that are left over finds the loop that a refusal tells, within as many steps as there are names.
pub fn walks_end_in_the_told_loop()
    ensures told { (file : File) (library : Library) (m : Model) (left front others : List Name) (start first : Name) → WalkedLoopIsTold file library m left front others start first }
    ensures fits { (ns all : List Name) → DistinctNamesFit ns all }
{}

/// Valuations that fit a used model of a sound file agree on each net that the model drives or reads, where they agree on
/// its inputs, clocks and latch outputs.
pub fn fitting_valuations_agree()
    ensures { (file : File) (library : Library) (m : Model) (v w : Valuation) → FittingValuationsAgree file library m v w }
{}

/// A sound source has at most one outcome for each input and state, and at most one run on a stream.
pub fn sources_step_once()
    ensures cycle { (file : File) (library : Library) (m : Model) (x s y next other_y other_next : Bits) → CyclesHaveOneOutcome file library m x s y next other_y other_next }
    ensures run { (file : File) (library : Library) (xs : Stream) (states outs other_states other_outs : List Bits) → SourcesHaveOneRun file library xs states outs other_states other_outs }
{}

/// A net has one cone and one cost of it. The cone is the driver and the cones of what the driver reads.
pub fn cones_are_drivers_and_reads()
    ensures one_cost { (file : File) (library : Library) (m : Model) (x : Name) (a b : ℕ) → ConesHaveOneCost file library m x a b }
    ensures driver { (file : File) (library : Library) (m : Model) (s : Statement) (x : Name) → ConeIsDriverAndReads file library m s x }
    ensures given { (file : File) (library : Library) (m : Model) (x : Name) → ConesOfGivenAreEmpty file library m x }
{}

/// Where gates are appended statement by statement, those behind a net are no more than the cone of its name costs, and
/// all of them no more than the source costs.
pub fn gates_cost_no_more_than_cones()
    ensures cone { (file : File) (library : Library) (m : Model) (machine : Machine) (owners : List ℕ) (x : Name) (n : ℕ) → GatesCostNoMore file library m machine owners x n }
    ensures all { (file : File) (library : Library) (m : Model) (net : GateList) (owners : List ℕ) → GatesAreWithinCost file library m net owners }
    ensures kept { (file : File) (library : Library) (m : Model) (leaves : ℕ) (owners more : List ℕ) (x : Name) (n : ℕ) → StandingIsKept file library m leaves owners more x n }
    ensures in_two_steps { (old middle new : GateList) (ins more : List ℕ) → ReadsCompose old middle new ins more }
{}

/// The cost of a `.subckt` that places a model is 1, its port words and the costs of the statements of that model.
pub fn placed_models_cost_their_statements()
    ensures { (file : File) (library : Library) (m : Model) (name : Name) (binds : List Bind) (k : Model) → PlacedModelsCost file library m name binds k }
{}

/// The statements of a sound model can be ordered. So some valuation fits each used model, whatever is given to it, and
/// a sound source has an outcome for each input and state.
pub fn sound_sources_step()
    ensures order { (file : File) (library : Library) (m : Model) → SoundModelsAreOrdered file library m }
    ensures fits { (file : File) (library : Library) (m : Model) (given : Valuation) → SomeValuationFits file library m given }
    ensures cycle { (file : File) (library : Library) (m : Model) (x s : Bits) → CyclesHaveAnOutcome file library m x s }
{}

/// A valuation fits a model exactly where it meets each statement, which rests on what the statement reads and drives.
pub fn valuations_fit_by_statements()
    ensures each { (file : File) (library : Library) (m : Model) (v : Valuation) → FitsWhereEachHolds file library m v }
    ensures local { (file : File) (library : Library) (s : Statement) (v w : Valuation) → HoldingIsLocal file library s v w }
{}

/// A machine that was made of a sound source statement by statement means what the source means, and is no larger.
pub fn lowered_machines_are_of_their_source()
    ensures { (file : File) (library : Library) (m : Model) (machine : Machine) (owners : List ℕ) → LoweredMachinesAreOfTheirSource file library m machine owners }
{}

/// What a search along placed models finds are the models that a file uses, and those that contain themselves.
pub fn searches_find_used_models()
    ensures step { (file : File) (a b : Model) (n : ℕ) → ChainsBeginWithAStep file a b n }
    ensures reached { (file : File) (a : Model) (reached : List Model) (k : Model) → ReachedAreAll file a reached k }
    ensures used { (file : File) (top : Model) (reached : List Model) (k : Model) → UsedAreReached file top reached k }
    ensures contains_itself { (file : File) (library : Library) (m : Model) → ContainsItselfByAStep file library m }
{}

/// Where placed models stand on higher levels, no model contains itself, and levels tell how deep models are.
pub fn levels_bound_chains_of_models()
    ensures no_recursion { (file : File) (library : Library) (level : Model → ℕ) (m : Model) → LevelsHaveNoRecursion file library level m }
    ensures depth { (file : File) (library : Library) (level : Model → ℕ) (top k : Model) → LevelsAreDepths file library level top k }
    ensures within { (file : File) (level : Model → ℕ) (top k : Model) (n : ℕ) → ChainsAreWithinLevels file level top k n }
{}

/// A file that passes all tests is sound. What a test finds is told where the file passes the earlier ones.
pub fn passed_files_are_sound()
    ensures sound { (file : File) (library : Library) → PassedFilesAreSound file library }
    ensures nothing { (file : File) (library : Library) (fault : SoundFault) → PassedTestsFindNothing file library fault }
    ensures told { (file : File) (library : Library) (fault : SoundFault) → FirstFoundIsTold file library fault }
    ensures drivers { (file : File) (library : Library) (m : Model) → OneDriverWhereNoneTwice file library m }
    ensures placements { (file : File) (library : Library) (m : Model) → PlacementsWherePortsAreGood file library m }
    ensures driven { (file : File) (library : Library) (m : Model) → DrivenWhereNoneUndriven file library m }
{}

/// Nets that fit a model statement by statement fit it, also where more gates answer, and their bits are a valuation that
/// fits it.
pub fn nets_fit_by_statements()
    ensures each { (file : File) (library : Library) (net : GateList) (first end : ℕ) (m : Model) (nets : Nets) → NetsFitWhereEachHolds file library (AnswersWithin net first end) m nets }
    ensures local { (file : File) (library : Library) (net : GateList) (first end : ℕ) (s : Statement) (nets other : Nets) → NetsHoldingIsLocal file library (AnswersWithin net first end) s nets other }
    ensures more { (file : File) (library : Library) (net longer : GateList) (first end low high : ℕ) (m : Model) (nets : Nets) → NetsFitWithMoreGates file library (AnswersWithin net first end) (AnswersWithin longer low high) m nets }
    ensures more_hold { (file : File) (library : Library) (net longer : GateList) (first end low high : ℕ) (nets : Nets) (s : Statement) → NetsHoldWithMoreGates file library (AnswersWithin net first end) (AnswersWithin longer low high) nets s }
    ensures bits { (file : File) (library : Library) (net : GateList) (first end : ℕ) (m : Model) (nets : Nets) (v : ℕ → Bool) → BitsOfFittingNetsFit file library (AnswersWithin net first end) m nets v }
    ensures machine { (file : File) (library : Library) (m : Model) (machine : Machine) (nets : Nets) → FittingMachinesHaveBits file library m machine nets }
{}

/// A machine whose nets are numbered as leaves and as gates of their drivers means what the sound source means. With the
/// names of the main model it is the source, elaborated.
pub fn numbered_sources_are_elaborated()
    ensures machine { (file : File) (library : Library) (m : Model) (machine : Machine) (owners : List ℕ) (nets : Nets) → NumberedMachinesAreOfTheirSource file library m machine owners nets }
    ensures source { (file : File) (library : Library) (m : Model) (e : Elaborated) (owners : List ℕ) (nets : Nets) → NumberedSourcesAreElaborated file library m e owners nets }
{}

/// The item on the least line is the first in file order. Of items on one line it is the first as the lists stand.
pub fn least_lines_come_first()
    ensures first { (before : List Item) (x : Item) (after : List Item) → LeastLineIsFirst before x after }
    ensures above { (low : ℕ) (high : Option ℕ) (lines : List ℕ) (n : ℕ) → LaterLinesAreAbove low high lines n }
{}
