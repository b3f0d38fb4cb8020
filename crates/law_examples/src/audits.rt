//! What the pass of an audit finds in small files.

ghost use Rattle.std.specs.Prelude.{◌≡◌, None, Some, codes};
ghost use Rattle.netlist_spec.specs.CellBits.{cells_of, latch_bit, reads_output, shared, unused, wide};
ghost use Rattle.spec_examples.specs.Examples.{reading_model, two_latches, unused_model, wide_model};
ghost use Rattle.audit_laws.specs.OnePass.{first_finding};

/// What the pass finds in small files.
pub fn small_files_are_audited()
    ensures shared { first_finding (two_latches (codes "n")) (cells_of (two_latches (codes "n"))) ≡ Some (shared (codes "n") (latch_bit 0) (latch_bit 1)) }
    ensures independent { first_finding (two_latches (codes "x")) (cells_of (two_latches (codes "x"))) ≡ None }
    ensures wide { first_finding wide_model (cells_of wide_model) ≡ Some (wide (codes "y")) }
    ensures unused { first_finding unused_model (cells_of unused_model) ≡ Some (unused (codes "z")) }
    ensures output_read { first_finding reading_model (cells_of reading_model) ≡ Some (reads_output (codes "y") (codes "z")) }
{}
