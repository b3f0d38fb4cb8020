//! A small guard that corrects, made of copies out of a joined list.

ghost use Rattle.std.specs.Prelude.{◌≡◌, ℕ, suc, ◌+◌, ◌<◌, ◌++◌, List, [], ◌∷◌, length};
ghost use Rattle.netlist_spec.specs.CellBits.{latch_bit};
ghost use Rattle.guard_spec.specs.Codes.{correct};
ghost use Rattle.spec_examples.specs.Examples.{inverter_file, inverter_layout};
ghost use Rattle.guard_spec.specs.Containment.{IsGuard};
ghost use Rattle.netlist_spec.specs.Gates.{GateForm, IsMachine};
ghost use Rattle.guard_spec.specs.Plain.{IsMachineSizeWith};
ghost use Rattle.netlist_spec.specs.Runs.{IsSteady};
ghost use Rattle.guard_spec.specs.Rails.{SomeNoCodeword};
ghost use Rattle.guard_spec.specs.Words.{IsPartition};
ghost use Rattle.netlist_spec.specs.Written.{file_of};
ghost use Rattle.spec_examples.specs.Toggle.{thrice_code, toggle, toggle_corrector};
ghost use Rattle.gate_net.specs.GateNet.{net_count};
ghost use Rattle.guard_laws.specs.Promised.{IsGuardOf, cell_count};
ghost use Rattle.guard_laws.specs.Texts.{IsGuardFrom};
ghost use Rattle.corrector.specs.Corrected.{IsCorrectorRange};
ghost use Rattle.correction_laws.specs.FromJoined.{IsJoinedCheck, IsJoinedCopy};
ghost use Rattle.correction_laws.specs.Joined.{IsJoined};
ghost use Rattle.law_examples.specs.JoinedList.{behind, corrector_named, majority, majority_list, stored_gates, three_latches, thrice_settings, toggle_joined};
ghost use Rattle.guard_laws.specs.Within.{IsMadeWithin};

/// The premises hold of the register that turns its bit, with the majority of three latches for a corrector.
pub fn small_lists_are_joined()
    ensures corrected { IsCorrectorRange thrice_code 1 (record { places = 0 ∷ []; checks = 1 ∷ 2 ∷ [] }) three_latches majority_list (6 ∷ []) }
    ensures words { IsPartition (length toggle.latches) 1 inverter_layout.state × IsMachine toggle }
    ensures joined { IsJoined toggle thrice_code inverter_layout 1 toggle_joined (majority ∷ []) (6 ∷ []) 7 }
    ensures place { (gates : List GateForm) (last : ℕ) → net_count (behind (gates ++ stored_gates (3 + length gates))) ≡ last + 1
        → IsJoinedCopy toggle thrice_code inverter_layout toggle_joined (majority ∷ []) (6 ∷ []) 7 (latch_bit 0) (behind gates) (behind (gates ++ stored_gates (3 + length gates))) last }
    ensures check { (j : ℕ) → j < 2 → (gates : List GateForm) (last : ℕ) → net_count (behind (gates ++ stored_gates (3 + length gates))) ≡ last + 1
        → IsJoinedCheck toggle thrice_code inverter_layout toggle_joined (majority ∷ []) (6 ∷ []) 7 (latch_bit (suc j)) (behind gates) (behind (gates ++ stored_gates (3 + length gates))) last }
{}

/// The smallest guard that corrects is made of copies out of that list. So it is what a builder promises, with thirty cells of
/// at most 106.
pub fn small_guards_correct()
    ensures made { IsMadeWithin toggle_corrector toggle thrice_code correct 1 inverter_layout [] (SomeNoCodeword toggle_corrector thrice_code inverter_layout 1) }
    ensures promised { IsGuardOf toggle_corrector toggle thrice_code correct 1 0 inverter_layout }
    ensures size { IsMachineSizeWith toggle thrice_code correct 1 0 inverter_layout 106 × (cell_count toggle_corrector ≡ 30) }
{}

/// With its names it is a guard of its source in correction, from the elaborated source down to the text, for one fixed faulty
/// cell.
pub fn small_texts_correct()
    ensures from { IsGuardFrom inverter_file thrice_settings 1 corrector_named }
    ensures guard { IsGuard (file_of corrector_named) inverter_file thrice_settings (IsSteady 1) }
{}
