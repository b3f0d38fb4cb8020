//! Small guards that meet the premises of the laws of containment, and wrong ones that do not.

ghost use Rattle.std.specs.Prelude.{◌≡◌, [], ◌∷◌, true, false};
ghost use Rattle.netlist_spec.specs.CellBits.{IsIndependent};
ghost use Rattle.guard_spec.specs.Codes.{correct, detect};
ghost use Rattle.guard_spec.specs.Containment.{IsGuard};
ghost use Rattle.netlist_spec.specs.Covers.{empty_library};
ghost use Rattle.netlist_spec.specs.Elaborated.{IsMachineOf};
ghost use Rattle.spec_examples.specs.Examples.{inverter_file, inverter_layout, inverter_model, parity_code, parity_settings};
ghost use Rattle.netlist_spec.specs.Gates.{GateRun, IsMachine, Machine};
ghost use Rattle.guard_spec.specs.Regions.{AreSeparate, CoversGates, Guarded, HaveOwnNets};
ghost use Rattle.netlist_spec.specs.Ordered.{IsOrdered};
ghost use Rattle.guard_spec.specs.Shaped.{IsShaped};
ghost use Rattle.netlist_spec.specs.Runs.{IsSteady};
ghost use Rattle.containment.specs.Built.{IsCodedGuard, IsTellingGuard};
ghost use Rattle.containment.specs.Nets.{AreMoving, AreSteady};
ghost use Rattle.containment.specs.OnGates.{CorrectsOnGates, DetectsOnGates, IsFaithfulOnGates};
ghost use Rattle.spec_examples.specs.Refused.{ShareStoredNet, SharedCellsAreRefused, StrayReadsAreRefused, WrongNetsAreRefused, WrongRailsAreRefused};
ghost use Rattle.spec_examples.specs.Toggle.{moving_faults, one_fault, thrice_code, thrice_guard, toggle, toggle_corrector, toggle_guard, toggle_named, toggle_text, two_faults};
ghost use Rattle.spec_examples.specs.Unshown.{unshown, unshown_guard, unshown_layout};
ghost use Rattle.spec_examples.specs.Wire.{wire, wire_guard, wire_layout};
ghost use Rattle.containment.specs.Written.{IsBuiltText, IsNamedGuard, IsWellNamed, machine_of};

/// The premises of these laws hold of a guard of twelve nets, so it contains one fault on every stream. In one of its
/// runs a wrong stored bit raises both rails in the next cycle.
pub fn small_guard_detects()
    ensures telling { IsTellingGuard toggle_guard toggle parity_code 2 detect 1 inverter_layout }
    ensures separate { AreSeparate toggle_guard × HaveOwnNets toggle_guard toggle }
    ensures named { IsWellNamed toggle_named × (machine_of toggle_named ≡ toggle_guard.machine) }
    ensures faithful { IsFaithfulOnGates toggle_guard toggle parity_code inverter_layout }
    ensures steady { DetectsOnGates toggle_guard toggle parity_code inverter_layout (AreSteady 1) }
    ensures run { GateRun toggle_guard.machine ([] ∷ [] ∷ []) one_fault ((false ∷ false ∷ []) ∷ (false ∷ true ∷ []) ∷ (true ∷ true ∷ []) ∷ []) ((false ∷ false ∷ false ∷ false ∷ []) ∷ (false ∷ false ∷ true ∷ true ∷ []) ∷ []) }
{}

/// The premises hold of a guard with three latches that detects in a code of distance 3, so it detects one new fault in
/// each cycle on every stream. In one of its runs faults of two cycles turn two bits of one shown word.
pub fn small_guard_detects_moving_faults()
    ensures telling { IsTellingGuard thrice_guard toggle thrice_code 3 detect 2 inverter_layout }
    ensures separate { AreSeparate thrice_guard × HaveOwnNets thrice_guard toggle }
    ensures moving { DetectsOnGates thrice_guard toggle thrice_code inverter_layout (AreMoving 1) }
    ensures run { GateRun thrice_guard.machine ([] ∷ [] ∷ []) moving_faults ((false ∷ false ∷ false ∷ []) ∷ (false ∷ true ∷ true ∷ []) ∷ (true ∷ true ∷ true ∷ []) ∷ []) ((false ∷ false ∷ false ∷ false ∷ false ∷ []) ∷ (false ∷ false ∷ false ∷ true ∷ true ∷ []) ∷ []) }
{}

/// The premises hold of a guard of thirty nets that corrects, so it corrects one fault on every stream.
pub fn small_guard_corrects()
    ensures coded { IsCodedGuard toggle_corrector toggle thrice_code 3 correct 1 inverter_layout }
    ensures separate { AreSeparate toggle_corrector × HaveOwnNets toggle_corrector toggle }
    ensures steady { CorrectsOnGates toggle_corrector toggle thrice_code inverter_layout 1 (AreSteady 1) }
    ensures run { GateRun toggle_corrector.machine ([] ∷ [] ∷ []) two_faults ((false ∷ false ∷ false ∷ []) ∷ (true ∷ true ∷ true ∷ []) ∷ (false ∷ false ∷ false ∷ []) ∷ []) ((false ∷ false ∷ false ∷ []) ∷ (true ∷ false ∷ true ∷ []) ∷ []) }
{}

/// The text of the guard that detects is shaped, ordered and independent, with twelve cells of at most 38. Its source means
/// the machine for which the guard was built. So it is a guard of that source, for one fixed faulty cell.
pub fn small_text_is_a_guard()
    ensures source { IsMachineOf inverter_file empty_library inverter_model toggle }
    ensures named { IsNamedGuard toggle_named toggle_guard toggle }
    ensures shaped { IsShaped toggle_text inverter_file parity_settings × IsOrdered toggle_text
        × IsIndependent toggle_text }
    ensures built { IsBuiltText toggle_text inverter_file parity_settings 1 }
    ensures guard { IsGuard toggle_text inverter_file parity_settings (IsSteady 1) }
{}

/// The premises hold of a guard of which an output is a data input and no cell, and which has no latches.
pub fn wire_guard_detects()
    ensures telling { IsTellingGuard wire_guard wire parity_code 2 detect 1 wire_layout }
    ensures separate { AreSeparate wire_guard × HaveOwnNets wire_guard wire }
    ensures steady { DetectsOnGates wire_guard wire parity_code wire_layout (AreSteady 1) }
{}

/// The premises hold of a guard of a source without outputs, of which the rails are all that it shows.
pub fn unshown_guard_detects()
    ensures telling { IsTellingGuard unshown_guard unshown parity_code 2 detect 1 unshown_layout }
    ensures separate { AreSeparate unshown_guard × HaveOwnNets unshown_guard unshown }
    ensures steady { DetectsOnGates unshown_guard unshown parity_code unshown_layout (AreSteady 1) }
{}

/// Wrong guards don't meet the premises: a gate is shared by two data bits, by two latches, or by two rails; check bits are
/// taken from fresh data nets; rails watch the nets that latches store, or no output words; a rail is always 0 or always 1,
/// or a copy of another one; there are too few rails; one corrector serves all bits; check latches start at 0; an output is
/// a copy of the data input that it ought to be.
pub fn wrong_guards_are_refused()
    ensures shared_cells { SharedCellsAreRefused }
    ensures stray_reads { StrayReadsAreRefused }
    ensures wrong_rails { WrongRailsAreRefused }
    ensures wrong_nets { WrongNetsAreRefused }
    ensures shared_by_latches { (g : Guarded) (source : Machine) → IsMachine g.machine
        → CoversGates g → HaveOwnNets g source → ShareStoredNet g → ⊥ }
{}
