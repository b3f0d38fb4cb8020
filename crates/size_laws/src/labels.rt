// Laws of the names of labels.
ghost use Rattle.std.specs.Prelude.{◌≡◌, ℕ, IsTrue, List, ◌++◌, Some, map, not, slice_get};
ghost use Rattle.std.specs.List.{AllByRecursion, flat_map};
ghost use Rattle.guard_spec.specs.Codes.{Code};
ghost use Rattle.netlist_spec.specs.Elaborated.{Elaborated, HasElaboratedForm};
ghost use Rattle.netlist_spec.specs.Netlist.{Name, are_distinct, is_reserved};
ghost use Rattle.guard_spec.specs.Words.{Layout};
ghost use Rattle.netlist_spec.specs.Written.{Label, given_name, label_name};
ghost use Rattle.size_laws.specs.BitOrder.{IsLabelledByBits};
ghost use Rattle.size_laws.specs.Labels.{AreFreeLabels, AreGuardLabels, HasFewPlaces, HasNoRepeat, HasNoRepeatInKinds, HasSmallNumbers, IsFreeLabel};
ghost use Rattle.size_laws.specs.TakenOver.{names_from, taken_over};

/// Labels with one name are one label, so a list of labels without repeats gives a list of names without repeats.
pub fn distinct_labels_have_distinct_names()
    ensures two { (a b : Label) → IsFreeLabel a → IsFreeLabel b → label_name a ≡ label_name b → a ≡ b }
    ensures all { (labels : List Label) → AreFreeLabels labels → HasNoRepeat labels
        → IsTrue (are_distinct (map label_name labels)) }
    // Names of a source that aren't reserved are free.
    ensures free { (labels : List Label) → AllByRecursion HasSmallNumbers labels
        → AllByRecursion (λ n. IsTrue (not (is_reserved n))) (flat_map given_name labels) → AreFreeLabels labels }
{}

/// Ways to show that labels have no repeat: each tells its place, or no label of one kind stands twice, as where those
/// of a guard stand in order.
pub fn labels_have_no_repeat()
    ensures places { (labels : List Label) (place : Label → ℕ)
        → ((i : ℕ) (a : Label) → slice_get labels i ≡ Some a → place a ≡ i) → HasNoRepeat labels }
    ensures kinds { (labels : List Label) → HasNoRepeatInKinds labels → HasNoRepeat labels }
    ensures guard { (code : Code) (l : Layout) (rails : ℕ) (labels : List Label)
        → AreGuardLabels code l rails labels → HasNoRepeat labels }
{}

/// The names that a guard takes over from its source are distinct, and none looks like one that a guard adds.
pub fn names_taken_over_are_distinct()
    ensures distinct { (e : Elaborated) → HasElaboratedForm e → IsTrue (are_distinct (taken_over e)) }
    ensures free { (e : Elaborated) → HasElaboratedForm e → AllByRecursion (λ n. IsTrue (not (is_reserved n))) (taken_over e) }
{}

/// The labels of a guard whose gates stand bit by bit stand in order, and give the names of its inputs and outputs.
pub fn labels_by_bits_stand_in_order()
    ensures order { (code : Code) (l : Layout) (rails : ℕ) (inputs outputs : List Name) (bits : List (ℕ × Label)) (labels : List Label)
        → IsLabelledByBits code l rails inputs outputs bits labels → IsTrue (are_distinct (inputs ++ outputs))
        → AreGuardLabels code l rails labels }
    ensures names { (code : Code) (l : Layout) (rails : ℕ) (inputs outputs : List Name) (bits : List (ℕ × Label)) (labels : List Label)
        → IsLabelledByBits code l rails inputs outputs bits labels → flat_map given_name labels ≡ inputs ++ outputs }
{}

/// The names of the nets of a guard are distinct where its labels stand in order, as where its gates stand bit by bit
/// and the names come from an elaborated source.
pub fn guard_names_are_distinct()
    ensures small { (code : Code) (l : Layout) (rails : ℕ) (labels : List Label)
        → AreGuardLabels code l rails labels → HasFewPlaces code l rails labels → AllByRecursion HasSmallNumbers labels }
    ensures kinds { (code : Code) (l : Layout) (rails : ℕ) (labels : List Label)
        → AreGuardLabels code l rails labels → HasFewPlaces code l rails labels
        → AllByRecursion (λ n. IsTrue (not (is_reserved n))) (flat_map given_name labels)
        → IsTrue (are_distinct (map label_name labels)) }
    ensures bits { (e : Elaborated) (code : Code) (l : Layout) (rails : ℕ) (bits : List (ℕ × Label)) (labels : List Label)
        → HasElaboratedForm e → HasFewPlaces code l rails labels
        → IsLabelledByBits code l rails e.data_names (names_from e.machine.inputs e.output_names e.machine.outputs) bits labels
        → IsTrue (are_distinct (map label_name labels)) }
{}
