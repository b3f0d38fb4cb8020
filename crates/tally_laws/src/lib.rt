//! How the runs of a campaign are begun, ended early, sorted and counted.
#![tactic(auto)]

ghost use Rattle.std.specs.Prelude.{◌≡◌, ℕ, List};
ghost use Rattle.guard_spec.specs.Codes.{Code, Mode};
ghost use Rattle.netlist_spec.specs.Netlist.{File, Model};
ghost use Rattle.netlist_spec.specs.Runs.{Fault};
ghost use Rattle.netlist_spec.specs.SourceRun.{Bits, Stream};
ghost use Rattle.guard_spec.specs.Tally.{Outcome, Tally};
ghost use Rattle.guard_spec.specs.Words.{Layout, Settings};
ghost use Rattle.tally_laws.specs.Counts.{ContainedTalliesAreClean, CountsAddUp, OutcomesAreApart, RunsAreCounted, TalliesAddUp, TalliesAreOne};
ghost use Rattle.tally_laws.specs.EarlyEnd.{EarlyEndsAreSorted, WholeRunsAreSorted};
ghost use Rattle.tally_laws.specs.Parts.{FaultyRunsByParts, LateFaultsDoNothing, OtherCyclesAreFree, PartsAreRuns, RunsAreInParts, RunsGrow};
ghost use Rattle.tally_laws.specs.Seen.{OutcomesAreSeen, OutcomesByParts, Seen, SeenInParts, nothing_seen, seen, then_seen};
ghost use Rattle.tally_laws.specs.Settled.{SettledOutcomesStay, SettledRunsAreSorted};
ghost use Rattle.tally_laws.specs.Sorted.{FaultsAreSortedByParts, LateFaultsAreSorted};

/// A run over two streams in a row is two runs, of which the second starts with the stored bits that the first ends with.
pub fn runs_are_in_parts()
    ensures parts { (m : Model) (faults : List Fault) (c : ℕ) (s : Bits) (xs ys : Stream) (states outs : List Bits)
        → RunsAreInParts m faults c s xs ys states outs }
    ensures joined { (m : Model) (faults : List Fault) (c : ℕ) (s now : Bits) (xs ys : Stream) (states more outs later : List Bits)
        → PartsAreRuns m faults c s now xs ys states more outs later }
    ensures grown { (m : Model) (faults : List Fault) (c : ℕ) (s now x y next : Bits) (xs : Stream) (states outs : List Bits)
        → RunsGrow m faults c s now x y next xs states outs }
{}

/// A run with one fault is the free run up to the fault's cycle, and again from where the stored bits are the same.
pub fn faulty_runs_are_free_around_the_fault()
    ensures elsewhere { (m : Model) (fault : Fault) (c : ℕ) (s : Bits) (xs : Stream) (states outs : List Bits)
        → OtherCyclesAreFree m fault c s xs states outs }
    ensures parts { (g : File) (m : Model) (fault : Fault) (now met : Bits) (before between after : Stream) (stored faulty rest zs shown later : List Bits)
        → FaultyRunsByParts g m fault now met before between after stored faulty rest zs shown later }
    ensures late { (g : File) (fault : Fault) (xs : Stream) (stored zs : List Bits)
        → LateFaultsDoNothing g fault xs stored zs }
{}

/// What is seen of the cycles of a run decides its outcome, and is put together from parts.
pub fn outcomes_are_seen()
    ensures outcome { (code : Code) (l : Layout) (p : ℕ) (mode : Mode) (t : ℕ) (ys zs : List Bits)
        → OutcomesAreSeen code l p mode t ys zs }
    ensures parts { (code : Code) (l : Layout) (p t : ℕ) (ys zs more later : List Bits)
        → SeenInParts code l p t ys zs more later }
    ensures by_parts { (code : Code) (l : Layout) (p : ℕ) (mode : Mode) (t : ℕ) (ys zs wanted shown more later : List Bits)
        → OutcomesByParts code l p mode t ys zs wanted shown more later }
    ensures in_row { (a b c : Seen) → then_seen (then_seen a b) c ≡ then_seen a (then_seen b c) }
    ensures first { (a : Seen) → then_seen nothing_seen a ≡ a }
    ensures last { (a : Seen) → then_seen a nothing_seen ≡ a }
{}

/// A run with one fault is sorted by what is seen of the free run up to the fault's cycle, of the cycles from there until
/// the stored bits are the same, and of the free run from there on.
pub fn faults_are_sorted_by_parts()
    ensures parts { (g : File) (m : Model) (code : Code) (l : Layout) (p : ℕ) (mode : Mode) (t : ℕ) (fault : Fault) (before between after : Stream) (ys zs wanted shown more later : List Bits)
        → FaultsAreSortedByParts g m code l p mode t fault before between after ys zs wanted shown more later }
    ensures late { (g : File) (code : Code) (l : Layout) (p : ℕ) (mode : Mode) (t : ℕ) (fault : Fault) (xs : Stream) (stored ys zs : List Bits)
        → LateFaultsAreSorted g code l p mode t fault xs stored ys zs }
{}

/// The same beside one free run over the whole stream: a run with a fault starts with the stored bits of the free run, and
/// ends where it stores what the free run stores, or with the stream.
pub fn faults_are_sorted_beside_the_free_run()
    ensures early { (g : File) (m : Model) (code : Code) (l : Layout) (p : ℕ) (mode : Mode) (t : ℕ) (fault : Fault) (xs : Stream) (ys stored zs : List Bits) (n : ℕ) (faulty shown : List Bits)
        → EarlyEndsAreSorted g m code l p mode t fault xs ys stored zs n faulty shown }
    ensures whole { (g : File) (m : Model) (code : Code) (l : Layout) (p : ℕ) (mode : Mode) (t : ℕ) (fault : Fault) (xs : Stream) (ys stored zs : List Bits) (faulty shown : List Bits)
        → WholeRunsAreSorted g m code l p mode t fault xs ys stored zs faulty shown }
{}

/// A run may stop as soon as its outcome is settled, whatever the later cycles show.
pub fn settled_runs_are_sorted()
    ensures stays { (mode : Mode) (a b : Seen) (o : Outcome) → SettledOutcomesStay mode a b o }
    ensures sorted { (g : File) (code : Code) (l : Layout) (p : ℕ) (mode : Mode) (t : ℕ) (fault : Fault) (xs : Stream) (ys stored zs : List Bits) (n : ℕ) (now : Bits) (faulty shown : List Bits) (o : Outcome)
        → SettledRunsAreSorted g code l p mode t fault xs ys stored zs n now faulty shown o }
{}

/// The counts of a tally are of all runs, two for each cell, and there is one tally.
pub fn tallies_add_up()
    ensures apart { (a b : Outcome) → OutcomesAreApart a b }
    ensures counted { (os : List Outcome) (o : Outcome) → RunsAreCounted os o }
    ensures all { (os : List Outcome) → CountsAddUp os }
    ensures cells { (g : File) (m : Model) (code : Code) (l : Layout) (p : ℕ) (mode : Mode) (t : ℕ) (xs : Stream) (ys : List Bits) (cycle : ℕ) (tally : Tally)
        → TalliesAddUp g m code l p mode t xs ys cycle tally }
    ensures one { (g : File) (code : Code) (l : Layout) (p : ℕ) (mode : Mode) (t : ℕ) (xs : Stream) (ys : List Bits) (cycle : ℕ) (tally other : Tally)
        → TalliesAreOne g code l p mode t xs ys cycle tally other }
{}

/// The tally of a file that contains few faults of one cycle is clean.
pub fn contained_tallies_are_clean()
    ensures { (g source : File) (s : Settings) (m gm : Model) (k few : ℕ) (l : Layout) (xs : Stream) (states ys : List Bits) (cycle : ℕ) (tally : Tally)
        → ContainedTalliesAreClean g source s m gm k few l xs states ys cycle tally }
{}
