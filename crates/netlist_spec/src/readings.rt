//! Laws of reading: each text has a reading or a refusal, and the first faulty line decides which refusal.

ghost use Rattle.std.specs.Prelude.{◌≡◌, ℕ, List, [], ◌∷◌, ◌++◌, None, Some, ◌⊎◌};
ghost use Rattle.netlist_spec.specs.Lines.{Line, logical_lines};
ghost use Rattle.netlist_spec.specs.Netlist.{File};
ghost use Rattle.netlist_spec.specs.ReadFaults.{ReadFault, fault_from, line_fault, no_model, read_fault};
ghost use Rattle.netlist_spec.specs.Reads.{Reads};
ghost use Rattle.netlist_spec.specs.Said.{declared_file};

/// Each text either has no fault, and then says the file that its logical lines declare, or is refused with
/// its fault, and then says none.
pub fn texts_are_read_or_refused()
    ensures reads { (bytes : List ℕ) → read_fault bytes ≡ None → Reads bytes (declared_file (logical_lines bytes)) }
    ensures never_both { (bytes : List ℕ) (file : File) (fault : ReadFault) → Reads bytes file → read_fault bytes ≡ Some fault → ⊥ }
    ensures either { (bytes : List ℕ) → ((read_fault bytes ≡ None) × Reads bytes (declared_file (logical_lines bytes)))
        ⊎ ((fault : ReadFault) × (read_fault bytes ≡ Some fault)) }
{}

/// The first line that fails a test decides, whatever is behind it.
pub fn first_faulty_line_decides()
    ensures passed { (earlier : List Line) (l : Line) → fault_from [] earlier ≡ None → line_fault earlier l ≡ None → fault_from [] (earlier ++ l ∷ []) ≡ None }
    ensures failed { (earlier : List Line) (l : Line) (rest : List Line) (fault : ReadFault) → fault_from [] earlier ≡ None → line_fault earlier l ≡ Some fault
        → fault_from [] (earlier ++ l ∷ rest) ≡ Some fault }
    ensures refused { (bytes : List ℕ) (earlier : List Line) (l : Line) (rest : List Line) (fault : ReadFault) → logical_lines bytes ≡ earlier ++ l ∷ rest
        → fault_from [] earlier ≡ None → line_fault earlier l ≡ Some fault → read_fault bytes ≡ Some fault }
    ensures without_lines { (bytes : List ℕ) → logical_lines bytes ≡ [] → read_fault bytes ≡ Some (no_model 0) }
    ensures without_fault { (bytes : List ℕ) (l : Line) (rest : List Line) → logical_lines bytes ≡ l ∷ rest → fault_from [] (l ∷ rest) ≡ None → read_fault bytes ≡ None }
{}
