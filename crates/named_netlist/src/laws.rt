// Laws of written gate lists: each is the contract of a function that does nothing.
ghost use Rattle.std.specs.Prelude.{◌≡◌, ◌↔◌, ℕ, ◌≤◌, List, length, not, IsSomeAnd, IsTrue};
ghost use Rattle.std.specs.List.{AllByRecursion};
ghost use Rattle.netlist_spec.specs.Gates.{GateRun, NetFault};
ghost use Rattle.netlist_spec.specs.GuardNames.{inner_name};
ghost use Rattle.netlist_spec.specs.Models.{gates_of, main_model};
ghost use Rattle.netlist_spec.specs.Netlist.{Name, is_reserved, stands_in};
ghost use Rattle.netlist_spec.specs.Ordered.{IsOrdered};
ghost use Rattle.netlist_spec.specs.Runs.{Fault, Run};
ghost use Rattle.netlist_spec.specs.SourceRun.{Bits, Stream};
ghost use Rattle.netlist_spec.specs.Text.{text_of};
ghost use Rattle.netlist_spec.specs.Written.{IsNamed, Named, file_of};
ghost use Rattle.netlist_spec.specs.WrittenForm.{HasGateForm, HasWrittenForm};
ghost use Rattle.netlist_spec.specs.WrittenText.{IsOneReading};
ghost use Rattle.gate_net.specs.Written.{HasOwnNames, named_machine};
ghost use Rattle.named_netlist.specs.Laws.{AreOfNets, HasNumberedInner, faults_by_name, faults_of_nets};

/// The text of a gate list says the file that it is written as, and no other.
pub fn named_texts_are_read()
    ensures { (g : Named) → IsNamed g → IsOneReading (text_of g.unknown_inits (file_of g)) (file_of g) }
{}

/// The file that a gate list is written as can be computed line by line.
pub fn named_files_are_ordered()
    ensures { (g : Named) → IsNamed g → IsOrdered (file_of g) }
{}

/// The runs of the file that a gate list is written as are those of its gates, whatever cells are faulty.
pub fn named_files_run_as_gates()
    ensures names { (g : Named) → IsNamed g → HasOwnNames g }
    ensures runs { (g : Named) → IsNamed g → (faults : List NetFault) → AreOfNets g faults
        → (xs : Stream) (states outs : List Bits)
        → Run (file_of g) xs (faults_by_name g faults) states outs ↔ GateRun (named_machine g) xs faults states outs }
    // So this is said of every list of faults: those at nets have numbers, and all others have no effect.
    ensures nets { (g : Named) → IsNamed g → (faults : List Fault)
        → (nets : List NetFault) × AreOfNets g nets × (faults_by_name g nets ≡ faults_of_nets g faults) }
    ensures others { (g : Named) → IsNamed g → (faults : List Fault) (xs : Stream) (states outs : List Bits)
        → Run (file_of g) xs faults states outs ↔ Run (file_of g) xs (faults_of_nets g faults) states outs }
{}

/// Each cell of the file that a gate list is written as is written for a gate, and reads at most two nets. Where the
/// gates are named or numbered inner nets, the file has the form of written netlists.
pub fn named_files_have_written_form()
    ensures gates { (g : Named) → IsNamed g → IsSomeAnd (main_model (file_of g))
        (λ m. AllByRecursion HasGateForm (gates_of m) × AllByRecursion (λ gate. length gate.ins ≤ 2) (gates_of m)) }
    ensures inner { (g : Named) → IsNamed g → (named : List Name) → HasNumberedInner g named
        → IsSomeAnd (main_model (file_of g)) (λ m. HasWrittenForm m named) }
    // An inner net's name is none of names that aren't reserved.
    ensures free { (named : List Name) → AllByRecursion (λ n. IsTrue (not (is_reserved n))) named → (i : ℕ)
        → IsTrue (not (stands_in (inner_name i) named)) }
{}
