// Laws of gate lists and machines: each is the contract of a function that does nothing.
ghost use Rattle.std.specs.Prelude.{◌≡◌, ◌↔◌, ℕ, ◌<◌, ◌≤◌, Bool, List, [], ◌∷◌, ◌++◌, length, map, IsSomeAnd};
ghost use Rattle.netlist_spec.specs.Covers.{cover_value};
ghost use Rattle.netlist_spec.specs.Gates.{
  AnswersWithin,
  ForcedNets,
  GateStep,
  GateForm,
  GateList,
  GateValues,
  IsEvaluation,
  IsGateList,
  IsMachine,
  Machine,
  NetFault,
  gate_answer,
  gate_cover,
  gate_reads,
};
ghost use Rattle.netlist_spec.specs.Fits.{Valuation};
ghost use Rattle.netlist_spec.specs.Models.{latch_inputs, main_model, output_nets};
ghost use Rattle.netlist_spec.specs.SourceRun.{Bits};
ghost use Rattle.netlist_spec.specs.Values.{Values};
ghost use Rattle.netlist_spec.specs.Written.{Named, file_of};
ghost use Rattle.gate_net.specs.GateNet.{net_count};
ghost use Rattle.gate_net.specs.Written.{AreFaultsOf, HasOwnNames, SameBits, named_faults, named_machine};

/// At the bits of its leaves a gate list has one evaluation.
pub fn gate_lists_have_one_evaluation()
    ensures some { (net : GateList)
        → IsGateList net
        → (leaves : Bits)
        → length leaves ≡ net.leaves
        → (v : ℕ → Bool) × IsEvaluation net leaves v }
    ensures one { (net : GateList)
        → IsGateList net
        → (leaves : Bits) (v w : ℕ → Bool)
        → IsEvaluation net leaves v
        → IsEvaluation net leaves w
        → (n : ℕ)
        → n < net_count net
        → v n ≡ w n }
{}

/// Gates that have their answers within a range of nets keep them within a part of it, and in the front of the list.
/// The gate that was appended last has its answer too.
pub fn gates_answer_in_ranges()
    ensures narrower { (net : GateList) (first end low high : ℕ) (v : ℕ → Bool)
        → first ≤ low
        → high ≤ end
        → AnswersWithin net first end v
        → AnswersWithin net low high v }
    ensures front { (net : GateList) (more : List GateForm) (first end : ℕ) (v : ℕ → Bool)
        → AnswersWithin (record net { gates = net.gates ++ more }) first end v
        → AnswersWithin net first end v }
    ensures last { (net : GateList) (gate : GateForm) (first end : ℕ) (v : ℕ → Bool)
        → first ≤ net_count net
        → net_count net < end
        → AnswersWithin (record net { gates = net.gates ++ gate ∷ [] }) first end v
        → v (net_count net) ≡ gate_answer gate v }
{}

/// At inputs and a state, whatever faults its cells have, a machine has one valuation, and so one step.
pub fn machines_have_one_cycle()
    ensures some { (m : Machine)
        → IsMachine m
        → (x s : Bits)
        → length x ≡ m.inputs
        → length s ≡ length m.latches
        → (faults : ForcedNets)
        → (v : ℕ → Bool) × GateValues m s x faults v }
    ensures one { (m : Machine)
        → IsMachine m
        → (x s : Bits) (faults : ForcedNets) (v w : ℕ → Bool)
        → GateValues m s x faults v
        → GateValues m s x faults w
        → (n : ℕ)
        → n < net_count m.net
        → v n ≡ w n }
    ensures same_step { (m : Machine)
        → IsMachine m
        → (faults : ForcedNets) (x s y next y' next' : Bits)
        → GateStep m faults x s y next
        → GateStep m faults x s y' next'
        → (y ≡ y') × (next ≡ next') }
{}

/// The cover that stands for a gate in a written file has the gate's answer.
pub fn covers_have_gate_answers()
    ensures { (gate : GateForm) (v : ℕ → Bool)
        → cover_value (gate_cover gate) (map v (gate_reads gate)) ≡ gate_answer gate v }
{}

/// Where each net of a gate list has a name of its own, the valuations of the file that it is written as are those of
/// the gate list, under each list of faults of its nets, and so are the outputs and what the latches store.
pub fn written_files_have_the_values_of_gates()
    ensures values { (g : Named)
        → HasOwnNames g
        → (w : Valuation) (v : ℕ → Bool)
        → SameBits g w v
        → (faults : ForcedNets)
        → AreFaultsOf g faults
        → (stored x : Bits)
        → IsSomeAnd (main_model (file_of g)) (λ m. Values m stored x (named_faults g faults) w
        ↔ GateValues (named_machine g) stored x faults v) }
    ensures outputs { (g : Named)
        → HasOwnNames g
        → (w : Valuation) (v : ℕ → Bool)
        → SameBits g w v
        → IsSomeAnd (main_model (file_of g)) (λ m. (map w (output_nets m) ≡ map v g.outputs)
        × (map w (latch_inputs m) ≡ map v (map (λ l. l.d) g.latches))) }
    // Bits by number are bits by name.
    ensures names { (g : Named) → HasOwnNames g → (v : ℕ → Bool) → (w : Valuation) × SameBits g w v }
{}
