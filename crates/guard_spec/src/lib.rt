//! Definitions of codes, of the words of a guard, of its shape and of what it keeps.
#![tactic(auto)]

ghost use Rattle.std.specs.Prelude.{ℕ, List};
ghost use Rattle.netlist_spec.specs.Netlist.{File};
ghost use Rattle.netlist_spec.specs.Runs.{Fault, Run, IsMoving, IsSteady};
ghost use Rattle.netlist_spec.specs.SourceRun.{Bits, Stream, SourceRun};
ghost use Rattle.guard_spec.specs.Containment.{IsGuard, IsGuardFor, IsGuardWithin};
ghost use Rattle.netlist_spec.specs.Sound.{IsSound};
ghost use Rattle.guard_spec.specs.Words.{Settings};
ghost use Rattle.guard_spec.specs.Dual.{IsDualGuard};

/// A guard of a sound source has the data inputs of the source, so it has a run on each stream on which the source has one,
/// whatever cells are faulty.
pub fn guards_have_a_run()
    ensures within { (g source : File) (s : Settings) → IsGuardWithin g source s
        → IsSound source s.library → (xs : Stream) (faults : List Fault) (states outs : List Bits)
        → SourceRun source s.library xs states outs → (stored zs : List Bits)
        × Run g xs faults stored zs }
    ensures steady { (g source : File) (s : Settings) → IsGuard g source s (IsSteady s.bound)
        → IsSound source s.library → (xs : Stream) (faults : List Fault) (states outs : List Bits)
        → SourceRun source s.library xs states outs → (stored zs : List Bits)
        × Run g xs faults stored zs }
    ensures moving { (g source : File) (s : Settings) (radius : ℕ)
        → IsGuardFor g source s radius (IsMoving s.bound) → IsSound source s.library
        → (xs : Stream) (faults : List Fault) (states outs : List Bits)
        → SourceRun source s.library xs states outs → (stored zs : List Bits)
        × Run g xs faults stored zs }
    ensures dual { (g source : File) (settings : Settings) (s : ℕ) → IsDualGuard g source settings s
        → IsSound source settings.library → (xs : Stream) (faults : List Fault) (states outs : List Bits)
        → SourceRun source settings.library xs states outs → (stored zs : List Bits)
        × Run g xs faults stored zs }
{}
