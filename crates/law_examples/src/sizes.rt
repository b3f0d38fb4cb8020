//! The labels of a small guard meet the premises of the laws of their names.

ghost use Rattle.std.specs.Prelude.{[], ◌∷◌, codes};
ghost use Rattle.spec_examples.specs.Examples.{inverter_layout, parity_code};
ghost use Rattle.netlist_spec.specs.Written.{check, given, inner, next, rail, store};
ghost use Rattle.size_laws.specs.BitOrder.{IsLabelledByBits};
ghost use Rattle.size_laws.specs.Labels.{AreGuardLabels};

/// The labels of a small guard stand bit by bit, and in order, kind by kind.
pub fn small_labels_stand_in_order()
    ensures bits { IsLabelledByBits parity_code inverter_layout 2 [] (codes "q" ∷ [])
        ((0, next 0 0) ∷ (0, next 0 1) ∷ (0, given (codes "q")) ∷ (0, check 0 0) ∷ (2, rail 0) ∷ (2, rail 1) ∷ [])
        (store 0 0 ∷ store 0 1 ∷ next 0 0 ∷ next 0 1 ∷ given (codes "q") ∷ check 0 0 ∷ inner 0 ∷ inner 1 ∷ rail 0 ∷ inner 2 ∷ inner 3 ∷ rail 1 ∷ []) }
    ensures kinds { AreGuardLabels parity_code inverter_layout 2
        (store 0 0 ∷ store 0 1 ∷ next 0 0 ∷ next 0 1 ∷ given (codes "q") ∷ check 0 0 ∷ inner 0 ∷ inner 1 ∷ rail 0 ∷ inner 2 ∷ inner 3 ∷ rail 1 ∷ []) }
{}
