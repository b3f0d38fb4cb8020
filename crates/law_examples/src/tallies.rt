//! What is seen of small runs.

ghost use Rattle.std.specs.Prelude.{◌≡◌, [], ◌∷◌, false, true};
ghost use Rattle.guard_spec.specs.Codes.{correct, detect};
ghost use Rattle.guard_spec.specs.Tally.{alarmed, decoded, wrong};
ghost use Rattle.spec_examples.specs.Examples.{counted, counted_with_fault, counter_layout, hamming_three, inverter_layout, parity_code};
ghost use Rattle.tally_laws.specs.Seen.{outcome_seen, seen};

/// What is seen of two small runs, and their outcomes.
pub fn small_runs_are_seen()
    ensures alarmed { outcome_seen detect (seen parity_code inverter_layout 1 1 ((false ∷ []) ∷ (true ∷ []) ∷ []) ((false ∷ false ∷ false ∷ false ∷ []) ∷ (false ∷ false ∷ true ∷ true ∷ []) ∷ [])) ≡ alarmed }
    ensures wrong { outcome_seen detect (seen parity_code inverter_layout 1 1 ((false ∷ []) ∷ (true ∷ []) ∷ []) ((false ∷ false ∷ false ∷ false ∷ []) ∷ (false ∷ false ∷ false ∷ false ∷ []) ∷ [])) ≡ wrong }
    ensures decoded { outcome_seen correct (seen hamming_three counter_layout 4 1 counted counted_with_fault) ≡ decoded }
{}
