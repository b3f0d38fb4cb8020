//! A small source that places a model meets the premises of the laws of elaboration.

ghost use Rattle.std.specs.Prelude.{[], ◌∷◌};
ghost use Rattle.netlist_spec.specs.Covers.{empty_library};
ghost use Rattle.netlist_spec.specs.Elaborated.{IsMachineOf};
ghost use Rattle.spec_examples.specs.SourceExamples.{placing_file, placing_model};
ghost use Rattle.source_laws.specs.Numbered.{IsNumbered};
ghost use Rattle.law_examples.specs.PlacingMachine.{copying_machine, outer_nets};

/// One gate is made of a source that places a model which copies its input.
pub fn small_placement_is_numbered()
    ensures numbered { IsNumbered placing_file empty_library placing_model copying_machine (0 ∷ []) outer_nets }
    ensures machine { IsMachineOf placing_file empty_library placing_model copying_machine }
{}
