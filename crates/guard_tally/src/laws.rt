// From what the steps of a campaign promise to its text.
ghost use Rattle.std.specs.Prelude.{ℕ, List};
ghost use Rattle.netlist_spec.specs.Netlist.{File};
ghost use Rattle.netlist_spec.specs.SourceRun.{Stream};
ghost use Rattle.netlist_spec.specs.Gates.{Machine};
ghost use Rattle.netlist_spec.specs.Written.{Named};
ghost use Rattle.guard_spec.specs.Words.{Layout, Settings};
ghost use Rattle.guard_tally.specs.Tallied.{HasItsShape, MakesText};
ghost use Rattle.guard_tally.specs.declared.tally.GuardTally.{GuardTally as Tallied};

/// A guard that was made for a source is in order, with the source's data inputs and outputs, the check bits and the rails.
pub fn guards_have_their_shape()
    ensures { (source : File) (s : Settings) (n : Named) (machine : Machine) (l : Layout) → HasItsShape source s n machine l }
{}

/// The tally of such a guard and its text are all that is said of what `campaign` writes; the tally is clean.
pub fn tallies_make_a_text()
    ensures { (settings netlist stimulus : List ℕ) (source : File) (s : Settings) (n : Named) (machine : Machine) (l : Layout) (xs : Stream) (cycle : ℕ) (t : Tallied)
        → MakesText settings netlist stimulus source s n machine l xs cycle t }
{}
