// Laws of simulators.
ghost use Rattle.std.specs.Prelude.{◌≡◌, List, [], ◌∷◌, ◌++◌, length};
ghost use Rattle.netlist_spec.specs.Netlist.{File};
ghost use Rattle.netlist_spec.specs.Runs.{Fault, forced_at};
ghost use Rattle.netlist_spec.specs.SourceRun.{Bits, Stream};
ghost use Rattle.fault_sim.specs.HasRun.{HasRun};
ghost use Rattle.fault_sim.specs.Simulated.{CycleUnder, Simulated, Simulates};

/// Cycles from the inits on, each under the faults of a list that are for it, are a run of the file.
pub fn cycles_make_a_run()
    ensures first { (file : File) (s : Simulated) → Simulates file s → (faults : List Fault) → s.stored ≡ s.inits → HasRun file faults [] [] s.stored }
    ensures further { (file : File) (s : Simulated) (simulates : Simulates file s) (faults : List Fault) (xs : Stream) (outs : List Bits) (x y after : Bits)
        → HasRun file faults xs outs s.stored
        → CycleUnder simulates.ordered.model (forced_at (length xs) faults) x s.stored y after
        → HasRun file faults (xs ++ x ∷ []) (outs ++ y ∷ []) after }
{}
