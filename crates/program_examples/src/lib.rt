//! Worked examples of what the program reads, answers and prints.
#![tactic(auto)]

ghost use Rattle.std.specs.Prelude.{◌≡◌, map, [], ◌∷◌, Err, None, Ok, Some, codes, true, false};
ghost use Rattle.spec_examples.specs.Examples.{weak_code, inverter_file, parity_code, two_latches};
ghost use Rattle.program_examples.specs.ProgramExamples.{audited_contents, demo_file, demo_model, four_layout, seventeen_cells, seventeen_lines, inverter_contents};
ghost use Rattle.netlist_spec.specs.Netlist.{cover_inputs};
ghost use Rattle.netlist_spec.specs.ReadFaults.{too_many, unknown_statement};
ghost use Rattle.netlist_spec.specs.SoundFaults.{bad_port, loop, no_such_model, reserved};
ghost use Rattle.program_spec.specs.Commands.{audit, campaign, code, command_of, demo, flat, guard, sim};
ghost use Rattle.program_spec.specs.Verdict.{IsAccepted, IsDoneText, IsFoundText, IsVerdict};
ghost use Rattle.guard_spec.specs.Codes.{detect, hamming_code};
ghost use Rattle.program_spec.specs.Demo.{demo_settings};
ghost use Rattle.netlist_spec.specs.Lines.{plain_lines};
ghost use Rattle.stimulus_spec.specs.Stimulus.{bad_script, more_than_sixteen, no_such_cell, script_of, stimulus_of};
ghost use Rattle.program_spec.specs.Printed.{IsFindingText, IsIndependentText, IsReport, IsRunText, demo_text, report_text, run_text, tally_text};
ghost use Rattle.program_spec.specs.ErrorLines.{answer_line, done, error_line, found, no_memory, read_fault as failed_load, refusal_text, refused, usage, write_fault};
ghost use Rattle.program_spec.specs.Refusals.{bad_layout, guard_too_large, out_of_order, too_small, unreadable, unsound};
ghost use Rattle.program_spec.specs.Walk.{passes, refused as refuses};
ghost use Rattle.netlist_spec.specs.Ordered.{has_subckt};
ghost use Rattle.guard_spec.specs.Plain.{IsPlain};
ghost use Rattle.guard_spec.specs.Words.{in_two_words, no_such_net, not_in_a_word};

/// Lines of stimulus and script aren't joined.
pub fn small_lines_are_plain()
    ensures words { map (λ l. l.words) (plain_lines (codes "1 \\\n\n2 # x\n")) ≡ (codes "1" ∷ codes "\\" ∷ []) ∷ (codes "2" ∷ []) ∷ [] }
    ensures numbers { map (λ l. l.number) (plain_lines (codes "1 \\\n\n2 # x\n")) ≡ 1 ∷ 3 ∷ [] }
    ensures comment { stimulus_of 0 (codes "- # c\n\n-\n") ≡ Ok ([] ∷ [] ∷ []) }
    ensures backslash { stimulus_of 1 (codes "1\\\n") ≡ Err 1 }
    ensures same_cycle { script_of (codes "a" ∷ []) (codes "000001 a 1\n1 a 0\n") ≡ Err (bad_script 2) }
    ensures form_first { script_of (codes "a" ∷ []) (codes "1 zz 2\n") ≡ Err (bad_script 1) }
{}

/// A small source with a small code is accepted, and `guard` passes.
pub fn small_pair_is_accepted()
    ensures accepted { IsAccepted inverter_contents (codes "s.toml") (codes "inv.blif") }
    ensures passes { IsVerdict (guard (codes "s.toml") (codes "inv.blif")) inverter_contents passes }
{}

/// Stimulus and script files, and their first faults.
pub fn small_scripts_are_read()
    ensures no_inputs { stimulus_of 0 (codes "-\n# idle\n-\n") ≡ Ok ([] ∷ [] ∷ []) }
    ensures two_inputs { stimulus_of 2 (codes "00\n01\n") ≡ Ok ((false ∷ false ∷ []) ∷ (false ∷ true ∷ []) ∷ []) }
    ensures bad_stimulus { stimulus_of 0 (codes "0") ≡ Err 1 }
    ensures entry { script_of (codes "q" ∷ []) (codes "\n1 q 0\n") ≡ Ok (record { cycle = 1; cell = codes "q"; bit = false } ∷ []) }
    ensures short { script_of (codes "q" ∷ []) (codes "1 q") ≡ Err (bad_script 1) }
    ensures long { script_of (codes "q" ∷ []) (codes "1000000 q 1") ≡ Err (bad_script 1) }
    ensures cell { script_of (codes "q" ∷ []) (codes "0 nosuch 1\n") ≡ Err (no_such_cell 1) }
    ensures again { script_of (codes "q" ∷ []) (codes "1 q 0\n1 q 1\n") ≡ Err (bad_script 2) }
    ensures many { script_of seventeen_cells seventeen_lines ≡ Err (more_than_sixteen 17) }
{}

/// Printed lines.
pub fn small_lines_are_printed()
    ensures report { report_text weak_code 1 (true ∷ false ∷ []) ≡ codes "code 5 2\ndistance 1\nword 10\ndetects 0\ncorrects 0\n" }
    ensures run { run_text ([] ∷ (true ∷ false ∷ []) ∷ []) ≡ codes "-\n10\n" }
    ensures tally { tally_text 21 (record { right = 30; alarmed = 12; decoded = 0; wrong = 0 }) ≡ codes "cells 21\nright 30\nalarmed 12\ndecoded 0\nwrong 0\n" }
    ensures demo { demo_text 13 4 4724 ≡ codes "statements 13\nlatches 4\nplain 4724\n" }
    ensures refusal { error_line (refusal_text (unreadable (unknown_statement 2 (46 ∷ 255 ∷ [])))) ≡ codes "impeccable: B1 line 2 unknown statement .\\xff\n" }
    ensures ring { error_line (refusal_text (unsound (loop (codes "p" ∷ codes "q" ∷ [])))) ≡ codes "impeccable: E9 loop p q\n" }
{}

/// Words that spell a command, and words that spell none.
pub fn small_words_are_commands()
    ensures flat { command_of (codes "flat" ∷ codes "a" ∷ []) ≡ Some (flat (codes "a")) }
    ensures code { command_of (codes "code" ∷ codes "a" ∷ []) ≡ Some (code (codes "a")) }
    ensures guard { command_of (codes "guard" ∷ codes "a" ∷ codes "b" ∷ []) ≡ Some (guard (codes "a") (codes "b")) }
    ensures sim { command_of (codes "sim" ∷ codes "a" ∷ codes "b" ∷ codes "c" ∷ []) ≡ Some (sim (codes "a") (codes "b") (codes "c")) }
    ensures audit { command_of (codes "audit" ∷ codes "a" ∷ []) ≡ Some (audit (codes "a")) }
    ensures none { command_of [] ≡ None }
    ensures few { command_of (codes "flat" ∷ []) ≡ None }
    ensures many { command_of (codes "flat" ∷ codes "a" ∷ codes "b" ∷ []) ≡ None }
    ensures few_of_two { command_of (codes "guard" ∷ codes "a" ∷ []) ≡ None }
    ensures few_of_three { command_of (codes "sim" ∷ codes "a" ∷ codes "b" ∷ []) ≡ None }
    ensures other { command_of (codes "flatten" ∷ codes "a" ∷ []) ≡ None }
    ensures campaign { command_of (codes "campaign" ∷ codes "a" ∷ codes "b" ∷ codes "c" ∷ codes "3" ∷ []) ≡ Some (campaign (codes "a") (codes "b") (codes "c") 3) }
    ensures six_digits { command_of (codes "campaign" ∷ codes "a" ∷ codes "b" ∷ codes "c" ∷ codes "000042" ∷ []) ≡ Some (campaign (codes "a") (codes "b") (codes "c") 42) }
    ensures seven_digits { command_of (codes "campaign" ∷ codes "a" ∷ codes "b" ∷ codes "c" ∷ codes "0000042" ∷ []) ≡ None }
    ensures no_digit { command_of (codes "campaign" ∷ codes "a" ∷ codes "b" ∷ codes "c" ∷ codes "x" ∷ []) ≡ None }
    ensures no_cycle { command_of (codes "campaign" ∷ codes "a" ∷ codes "b" ∷ codes "c" ∷ []) ≡ None }
    ensures demo { command_of (codes "demo" ∷ codes "64" ∷ []) ≡ Some (demo 64) }
    ensures leading_zero { command_of (codes "demo" ∷ codes "01" ∷ []) ≡ Some (demo 1) }
    ensures no_size { (command_of (codes "demo" ∷ codes "0" ∷ []) ≡ None) × (command_of (codes "demo" ∷ codes "00" ∷ []) ≡ None) }
    ensures large_size { command_of (codes "demo" ∷ codes "65" ∷ []) ≡ None }
    ensures long_size { command_of (codes "demo" ∷ codes "001" ∷ []) ≡ None }
{}

/// The whole text of a simulation, of a report on a code and of two audits.
pub fn small_texts_are_printed()
    ensures run { IsRunText inverter_file ([] ∷ [] ∷ []) [] (codes "0\n1\n") }
    ensures report { IsReport parity_code (codes "code 2 1\ndistance 2\nword 1\ndetects 1\ncorrects 0\n") }
    ensures independent { IsIndependentText (record { models = two_latches (codes "x") ∷ [] }) (codes "independent 4\na latch a\nb latch b\nn latch a\ny output y\n") }
    ensures finding { IsFindingText (record { models = two_latches (codes "n") ∷ [] }) (codes "shared n latch a latch b\n") }
{}

/// The verdicts and texts of three audits.
pub fn small_netlists_are_audited()
    ensures found { IsVerdict (audit (codes "shared.blif")) audited_contents passes
        × IsFoundText (audit (codes "shared.blif")) audited_contents (codes "shared n latch a latch b\n") }
    ensures done { IsVerdict (audit (codes "apart.blif")) audited_contents passes
        × IsDoneText (audit (codes "apart.blif")) audited_contents (codes "independent 4\na latch a\nb latch b\nn latch a\ny output y\n") }
    ensures refused { IsVerdict (audit (codes "placing.blif")) audited_contents (refuses (out_of_order (has_subckt 2))) }
{}

/// The verdicts of `flat` on a source that has a meaning, and on one that places a model that isn't there.
pub fn small_sources_pass_or_are_refused()
    ensures passes { IsVerdict (flat (codes "inv.blif")) inverter_contents passes }
    ensures refused { IsVerdict (flat (codes "placing.blif")) audited_contents (refuses (unsound (no_such_model (codes "s")))) }
{}

/// The line of each kind of answer.
pub fn small_answers_are_told()
    ensures done { answer_line done ≡ None }
    ensures found { answer_line found ≡ None }
    ensures usage { answer_line usage ≡ Some (codes "impeccable: usage: flat NETLIST, code SETTINGS, guard SETTINGS NETLIST, sim NETLIST STIMULUS SCRIPT, audit NETLIST, campaign SETTINGS NETLIST STIMULUS CYCLE, demo N\n") }
    ensures read { answer_line (failed_load (codes "a b")) ≡ Some (codes "impeccable: cannot read a\\x20b\n") }
    ensures write { answer_line write_fault ≡ Some (codes "impeccable: cannot write\n") }
    ensures memory { answer_line no_memory ≡ Some (codes "impeccable: no memory\n") }
    ensures count { answer_line (refused (unreadable (too_many 2 cover_inputs))) ≡ Some (codes "impeccable: B7 line 2 too many cover\n") }
    ensures distance { answer_line (refused (too_small 2 3)) ≡ Some (codes "impeccable: S5 distance 2 below 3\n") }
    ensures no_net { answer_line (refused (bad_layout (no_such_net (codes "zz")))) ≡ Some (codes "impeccable: L1 no such net zz\n") }
    ensures two_words { answer_line (refused (bad_layout (in_two_words (codes "q")))) ≡ Some (codes "impeccable: L2 in two words q\n") }
    ensures no_word { answer_line (refused (bad_layout (not_in_a_word (codes "q")))) ≡ Some (codes "impeccable: L3 in no word q\n") }
    ensures large { answer_line (refused guard_too_large) ≡ Some (codes "impeccable: G1 guard too large\n") }
    ensures reserved { answer_line (refused (unsound (reserved (codes "a\\")))) ≡ Some (codes "impeccable: E10 reserved a\\x5c\n") }
    ensures port { answer_line (refused (unsound (bad_port (codes "s") (codes "q\\")))) ≡ Some (codes "impeccable: E3 bad port s q\\x5c\n") }
{}

/// The size of the guard of the demo design for n = 1.
pub fn small_demo_has_a_size()
    ensures { IsPlain demo_file demo_settings.library demo_model hamming_code detect 3 four_layout 4724 }
{}
