//! A small guard meets the premises of the laws of guards.

ghost use Rattle.std.specs.Prelude.{◌++◌};
ghost use Rattle.netlist_spec.specs.Runs.{IsSteady};
ghost use Rattle.netlist_spec.specs.Text.{text_of};
ghost use Rattle.netlist_spec.specs.Written.{output_names};
ghost use Rattle.named_netlist.specs.Laws.{HasNumberedInner};
ghost use Rattle.spec_examples.specs.Toggle.{toggle_named, toggle_text};
ghost use Rattle.guard_laws.specs.Named.{stored_names};
ghost use Rattle.guard_laws.specs.Texts.{IsGuardFrom};
ghost use Rattle.spec_examples.specs.Examples.{inverter_file, inverter_text, parity_settings};
ghost use Rattle.guard_text_spec.specs.GuardText.{IsGuardText};
ghost use Rattle.law_examples.specs.ParityText.{parity_text};

/// The gates of a guard are outputs, nets that latches store, and inner nets with numbers.
pub fn guards_have_numbered_inner()
    ensures { HasNumberedInner toggle_named (output_names toggle_named ++ stored_names toggle_named) }
{}

/// The premises hold of the guard of the register that turns its bit.
pub fn small_guards_are_built()
    ensures { IsGuardFrom inverter_file parity_settings 1 toggle_named }
{}

/// So what is said of a guard's text holds of its text: settings and source are read, the text has one reading, which is a
/// guard of the source, and its rails tell.
pub fn small_texts_are_guard_texts()
    ensures { IsGuardText parity_text inverter_text (text_of 0 toggle_text) (λ t. IsSteady t) }
{}
