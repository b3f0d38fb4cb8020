//! From the leaves, cells and rails of a guard as it is made to what its builder promises.
#![tactic(auto)]

ghost use Rattle.std.specs.Prelude.{◌≡◌, ℕ, ◌+◌, ◌*◌, length, map};
ghost use Rattle.netlist_spec.specs.Gates.{Machine, IsMachine};
ghost use Rattle.guard_spec.specs.Codes.{Code, IsCode, data_places, detect};
ghost use Rattle.guard_spec.specs.Plain.{IsMachineSizeWith, rail_cost};
ghost use Rattle.guard_spec.specs.Words.{IsPartition, Layout};
ghost use Rattle.guard_laws.specs.Places.{latches_of_words};
ghost use Rattle.guard_laws.specs.Promised.{IsGuardOf};
ghost use Rattle.guard_cells.specs.Cells.{GivesCosts, words_cost};
ghost use Rattle.guard_made.specs.Made.{IsMade, guarded};

/// What is made so is a guard in detection, within any radius.
pub fn made_machines_are_guards()
    ensures { (m g : Machine) (code : Code) (l : Layout) (rails : ℕ) (made : IsMade m code l rails g)
        → IsMachine m → IsCode code
        → IsPartition (length m.latches) (data_places code) l.state → IsPartition (length m.outputs) (data_places code) l.output
        → (radius : ℕ) → IsGuardOf (guarded g made.nets) m code detect radius rails l }
{}

/// Each net of a machine has one cost, and these make up the size of a guard in detection.
pub fn costs_make_up_the_size()
    ensures costs { (m : Machine) → IsMachine m → (cost : ℕ → ℕ) × GivesCosts m cost }
    ensures size { (m : Machine) (code : Code) (l : Layout) (radius rails n : ℕ) (cost : ℕ → ℕ)
        → IsMachine m → GivesCosts m cost
        → IsPartition (length m.latches) (data_places code) l.state → IsPartition (length m.outputs) (data_places code) l.output
        → IsMachineSizeWith m code detect radius rails l n
        → n ≡ latches_of_words code l.state + words_cost cost code (map (λ r. r.d) m.latches) l.state
        + words_cost cost code m.outputs l.output + rails * rail_cost code l }
{}
