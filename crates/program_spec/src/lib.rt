//! Definitions of commands, of their verdicts, and of what is read and printed for them.
#![tactic(auto)]

ghost use Rattle.std.specs.Prelude.{◌≡◌, ℕ, List, None};
ghost use Rattle.program_spec.specs.Walk.{ComesToLoad, Contents, HasLoad, Verdict, not_held};
ghost use Rattle.program_spec.specs.Commands.{Command};
ghost use Rattle.program_spec.specs.Verdict.{IsDoneText, IsFoundText, IsVerdict, walk_of};

/// A command has at most one verdict over the contents of its files.
pub fn commands_have_one_verdict()
    ensures { (command : Command) (contents : Contents) (verdict other : Verdict)
        → IsVerdict command contents verdict → IsVerdict command contents other → verdict ≡ other }
{}

/// A command ends without an answer only at a file that isn't held, to whose load it comes. Loads to which it comes are
/// steps of its own.
pub fn commands_end_at_their_loads()
    ensures ends { (command : Command) (contents : Contents) (name : List ℕ)
        → IsVerdict command contents (not_held name) → ComesToLoad (walk_of command) contents name × (contents name ≡ None) }
    ensures own { (command : Command) (contents : Contents) (name : List ℕ)
        → ComesToLoad (walk_of command) contents name → (limit : ℕ) × HasLoad (walk_of command) name limit }
{}

/// What a command may write over the contents of its files tells that nothing is found, or what is.
pub fn texts_are_of_one_kind()
    ensures { (command : Command) (contents : Contents) (text other : List ℕ)
        → IsDoneText command contents text → IsFoundText command contents other → ⊥ }
{}
