//! Worked examples: the definitions hold of small texts, netlists, codes and guards, and refuse wrong ones.
#![tactic(auto)]

mod guards;

ghost use Rattle.std.specs.Prelude.{◌≡◌, map, [], ◌∷◌, Err, None, Ok, Some, codes, true, false};
ghost use Rattle.spec_examples.specs.Examples.{around_file, backward_file, backward_text, forward_file, forward_named, forward_text, box_file, chain_file, box_model, cipher_library, clock_is_read, driven_twice, guard_is_named, not_driven, two_edges, copies_file, copies_model, layer_file, layer_model, counted, counted_with_fault, five_layout, five_outputs, five_shown, reading_model, fourfold_code, unused_model, wide_model, counter_layout, hamming_three, inverter_layout, weak_code, empty_file, empty_text, empty_written, inverter_elaborated, inverter_machine, inverter_file, inverter_text, inverter_written, inverter_model, joined_text, with_state_words, long_name_text, parity_code, ring_file, ring_of_models, settings_read, two_latches, settings_text, wide_cover_text};
ghost use Rattle.netlist_spec.specs.Ordered.{IsOrdered, has_subckt, order_fault, unordered};
ghost use Rattle.netlist_spec.specs.Netlist.{cover_inputs, plain};
ghost use Rattle.netlist_spec.specs.ReadFaults.{after_end, bad_latch, bad_row, bad_subckt, long_name, mixed_cover, no_model, read_fault, too_many, twice_model, unknown_statement, word_count};
ghost use Rattle.netlist_spec.specs.Reads.{Reads};
ghost use Rattle.netlist_spec.specs.Runs.{FreeRun};
ghost use Rattle.netlist_spec.specs.SourceRun.{SourceCycle};
ghost use Rattle.guard_spec.specs.SettingsFile.{IsSettings, bad_shape, bad_value, missing, not_toml, settings_of_bytes, unknown_key};
ghost use Rattle.netlist_spec.specs.Covers.{IsLibrary, empty_library};
ghost use Rattle.netlist_spec.specs.SoundFaults.{IsRefusedWith, bad_clocking, loop, recursion, reserved, too_deep, twice, undriven};
ghost use Rattle.netlist_spec.specs.Sound.{IsSound};
ghost use Rattle.guard_spec.specs.Shaped.{check_outputs, guard_latches, rail_outputs};
ghost use Rattle.guard_spec.specs.Codes.{apart, correct, detect};
ghost use Rattle.netlist_spec.specs.Size.{cover_cost};
ghost use Rattle.guard_spec.specs.Codes.{hamming_code};
ghost use Rattle.netlist_spec.specs.Lines.{logical_lines};
ghost use Rattle.netlist_spec.specs.Digits.{decimal_of};
ghost use Rattle.netlist_spec.specs.CellBits.{IsFinding, IsIndependent, latch_bit, shared, reads_output, unused, wide};
ghost use Rattle.guard_spec.specs.Tally.{alarmed, decoded, outcome_of, right, wrong};
ghost use Rattle.guard_spec.specs.Words.{in_two_words, layout_fault, no_such_net, not_in_a_word, output_word};
ghost use Rattle.guard_spec.specs.Plain.{IsPlain, corrector_cost};
ghost use Rattle.guard_spec.specs.Dual.{far_rail_cost};
ghost use Rattle.guard_spec.specs.Contained.{IsWholeAt, is_alarmed};
ghost use Rattle.netlist_spec.specs.Text.{text_of};
ghost use Rattle.netlist_spec.specs.Elaborated.{IsElaborated, IsMachineOf};
ghost use Rattle.netlist_spec.specs.Written.{IsNamed, file_of};
ghost use Rattle.netlist_spec.specs.Flat.{IsFlat};
ghost use Rattle.netlist_spec.specs.WrittenText.{IsFlatText};
ghost use Rattle.spec_examples.specs.SourceExamples.{placing_file};

pub use guards::{
    small_guard_corrects, small_guard_detects, small_guard_detects_moving_faults,
    small_text_is_a_guard, unshown_guard_detects, wire_guard_detects, wrong_guards_are_refused,
};

/// Two small texts say the files that a reader of BLIF expects.
pub fn small_texts_are_read()
    ensures empty { Reads empty_text empty_file }
    ensures inverter { Reads inverter_text inverter_file }
{}

/// Their written texts.
pub fn small_texts_are_written()
    ensures empty { text_of 0 empty_file ≡ empty_written }
    ensures inverter { text_of 0 inverter_file ≡ inverter_written }
{}

/// A register that turns its bit in each cycle is in order, and runs so. A cell that reads a later one is not.
pub fn small_files_run()
    ensures ordered { IsOrdered inverter_file }
    ensures backward { order_fault backward_file ≡ Some (unordered 4) }
    ensures run { FreeRun inverter_file ([] ∷ [] ∷ []) ((false ∷ []) ∷ (true ∷ []) ∷ (false ∷ []) ∷ []) ((false ∷ []) ∷ (true ∷ []) ∷ []) }
{}

/// Texts that say no file, each with its first fault.
pub fn small_texts_are_refused()
    ensures no_bytes { read_fault [] ≡ Some (no_model 0) }
    ensures no_model { read_fault (codes ".inputs a\n") ≡ Some (no_model 1) }
    ensures statement { read_fault (codes ".model m\n.gate nand2 a=x\n") ≡ Some (unknown_statement 2 (codes ".gate")) }
    ensures row { read_fault (codes ".model m\n.names a b y\n1 1\n") ≡ Some (bad_row 3) }
    ensures lone_row { read_fault (codes ".model m\n1 1\n") ≡ Some (bad_row 2) }
    ensures latch { read_fault (codes ".model m\n.latch a b ah clk 0\n") ≡ Some (bad_latch 2) }
    ensures long { read_fault long_name_text ≡ Some (long_name 2) }
    ensures wide { read_fault wide_cover_text ≡ Some (too_many 2 cover_inputs) }
    ensures twice { read_fault (codes ".model m\n.end\n.model m\n") ≡ Some (twice_model 3 (codes "m")) }
    ensures subckt { read_fault (codes ".model m\n.subckt s a\n") ≡ Some (bad_subckt 2) }
    ensures end { read_fault (codes ".model m\n.end\n.names y\n") ≡ Some (after_end 3) }
    ensures words { read_fault (codes ".model\n") ≡ Some (word_count 1) }
    ensures mixed { read_fault (codes ".model c\n.inputs a b\n.outputs y\n.names a b y\n00 0\n11 1\n") ≡ Some (mixed_cover 6) }
    ensures none { read_fault inverter_text ≡ None }
{}

/// Where a comment begins, where a line goes on with the next, and which number a joined line has.
pub fn small_lines_are_joined()
    ensures comments { read_fault (codes ".model m#c\n.end# \n") ≡ None }
    ensures carriage_returns { read_fault (codes ".model m\r\n.inputs a \\\r\n b\r\n.end\r\n") ≡ None }
    ensures at_end { read_fault (codes ".model m\n.end \\") ≡ None }
    ensures before_comment { read_fault (codes ".model \\ # x\nm\n") ≡ None }
    ensures in_comment { read_fault (codes ".model # x \\\nm\n") ≡ Some (word_count 1) }
    ensures two_backslashes { read_fault (codes ".model m\\\\\n.end\n") ≡ Some (word_count 1) }
    ensures number { read_fault (codes "\n\\\n.end\n") ≡ Some (no_model 2) }
{}

/// Statements at the edge of their forms.
pub fn small_statements_are_read()
    ensures row_after_end { read_fault (codes ".model m\n.names y\n.end\n1\n") ≡ Some (after_end 4) }
    ensures latches { read_fault (codes ".model m\n.latch a b re clk\n.latch c d fe NIL 3\n.latch e f 2\n") ≡ None }
    ensures one_more_word { read_fault (codes ".model m\n.latch a b re\n") ≡ Some (bad_latch 2) }
    ensures large_init { read_fault (codes ".model m\n.latch a b re clk 4\n") ≡ Some (bad_latch 2) }
    ensures mixed { read_fault (codes ".model m\n.names y\n1\n1\n0\n") ≡ Some (mixed_cover 5) }
    ensures no_place { read_fault (codes ".model m\n.names y\n- 1\n") ≡ Some (bad_row 3) }
    ensures equals { read_fault (codes ".model m\n.subckt a=b f=a=b\n") ≡ None }
    ensures no_formal { read_fault (codes ".model m\n.subckt s =b\n") ≡ Some (bad_subckt 2) }
    ensures dot { read_fault (codes ".model m\n.\n") ≡ Some (unknown_statement 2 (codes ".")) }
{}

/// Numbers have one to six digits, zeros at the front among them.
pub fn small_numbers_are_read()
    ensures zeros { decimal_of 999999 (codes "000001") ≡ Some 1 }
    ensures seven_digits { decimal_of 999999 (codes "0000001") ≡ None }
    ensures none { decimal_of 999999 [] ≡ None }
    ensures sign { decimal_of 999999 (codes "+1") ≡ None }
    ensures most { decimal_of 64 (codes "64") ≡ Some 64 }
    ensures more { decimal_of 64 (codes "65") ≡ None }
{}

/// What a settings file stands for, and the first fault of others.
pub fn small_settings_are_read()
    ensures read { settings_of_bytes settings_text ≡ Ok settings_read }
    ensures not_toml { settings_of_bytes (codes "mode =") ≡ Err not_toml }
    ensures missing { settings_of_bytes (codes "mode = \"detect\"\ncheck = [\"1\"]\n") ≡ Err (missing (codes "bound")) }
    ensures mode { settings_of_bytes (codes "mode = \"both\"\nbound = 1\ncheck = [\"1\"]\n") ≡ Err (bad_value (codes "mode")) }
    ensures bound { settings_of_bytes (codes "mode = \"detect\"\nbound = 0\ncheck = [\"1\"]\n") ≡ Err (bad_value (codes "bound")) }
    ensures unknown { settings_of_bytes (codes "mode = \"detect\"\nbound = 1\ncheck = [\"1\"]\nspeed = 1\n") ≡ Err (unknown_key (codes "speed")) }
    ensures shape { settings_of_bytes (codes "mode = \"detect\"\nbound = 1\ncheck = [\"1\", \"11\"]\n") ≡ Err bad_shape }
    ensures no_text { settings_of_bytes (255 ∷ []) ≡ Err not_toml }
{}

/// Two cells that read each other are refused, with the nets of the loop.
pub fn small_ring_is_refused()
    ensures { IsRefusedWith ring_file empty_library (loop (codes "p" ∷ codes "q" ∷ [])) }
{}

/// Words of a small code: a word of four places and one of one place start at the codewords of their inits.
pub fn small_words_are_encoded()
    ensures inits { map (λ l. l.init) (guard_latches hamming_code plain (true ∷ false ∷ false ∷ false ∷ true ∷ []) ((0 ∷ 1 ∷ 2 ∷ 3 ∷ []) ∷ (4 ∷ []) ∷ []))
        ≡ map (λ n. Some n) (1 ∷ 0 ∷ 0 ∷ 0 ∷ 0 ∷ 1 ∷ 1 ∷ 1 ∷ 1 ∷ 0 ∷ 1 ∷ 1 ∷ 1 ∷ []) }
    ensures latches { map (λ l. l.q) (guard_latches parity_code plain (false ∷ []) ((0 ∷ []) ∷ []))
        ≡ codes "guard:s0:0" ∷ codes "guard:s0:1" ∷ [] }
    ensures stores { map (λ l. l.d) (guard_latches parity_code plain (false ∷ []) ((0 ∷ []) ∷ []))
        ≡ codes "guard:d0:0" ∷ codes "guard:d0:1" ∷ [] }
    ensures checks { check_outputs parity_code ((0 ∷ []) ∷ []) ≡ codes "guard:o0:c0" ∷ [] }
    ensures rails { rail_outputs 2 ≡ codes "guard:alarm0" ∷ codes "guard:alarm1" ∷ [] }
    ensures two_words { check_outputs weak_code ((0 ∷ 1 ∷ []) ∷ (2 ∷ []) ∷ [])
        ≡ codes "guard:o0:c0" ∷ codes "guard:o0:c1" ∷ codes "guard:o0:c2" ∷ codes "guard:o1:c0" ∷ codes "guard:o1:c1" ∷ codes "guard:o1:c2" ∷ [] }
    ensures last_word { output_word hamming_code 5 five_shown (1, 4 ∷ [])
        ≡ true ∷ false ∷ true ∷ true ∷ true ∷ [] }
    ensures whole { IsWholeAt hamming_code five_layout 5 five_outputs five_shown }
    ensures alarmed { is_alarmed hamming_code five_layout 5 five_shown ≡ true }
    ensures apart { apart (false ∷ true ∷ false ∷ false ∷ true ∷ true ∷ false ∷ []) (true ∷ true ∷ false ∷ false ∷ true ∷ true ∷ false ∷ [])
        ≡ 1 }
    ensures cost { cover_cost 1 124995 ≡ 499982 }
{}

/// The sizes of small guards: of the register that turns its bit, and with far rails.
pub fn small_guards_have_sizes()
    ensures inverter { IsPlain inverter_file empty_library inverter_model parity_code detect 1 inverter_layout 38 }
    ensures corrector { corrector_cost fourfold_code 1 1 ≡ 22 }
    ensures far_rail { far_rail_cost fourfold_code 1 inverter_layout ≡ 47 }
{}

/// Lines with carriage returns, a line that is joined, comments, and no line end at the end.
pub fn small_lines_are_cut()
    ensures numbers { map (λ l. l.number) (logical_lines joined_text) ≡ 1 ∷ 2 ∷ 4 ∷ 5 ∷ [] }
    ensures words { map (λ l. l.words) (logical_lines joined_text)
        ≡ (codes ".model" ∷ codes "m" ∷ []) ∷ (codes ".inputs" ∷ codes "a" ∷ codes "b" ∷ [])
        ∷ (codes ".names" ∷ codes "a" ∷ codes "b" ∷ codes "y" ∷ []) ∷ (codes "11" ∷ codes "1" ∷ []) ∷ [] }
{}

/// Two latches that store one cell share it, and two that store nets of their own don't. A cell is too wide, unused, or
/// reads an output that a cell drives.
pub fn small_audits_are_told()
    ensures shared { IsFinding (two_latches (codes "n")) (shared (codes "n") (latch_bit 0) (latch_bit 1)) }
    ensures independent { IsIndependent (record { models = two_latches (codes "x") ∷ [] }) }
    ensures wide { IsFinding wide_model (wide (codes "y")) }
    ensures unused { IsFinding unused_model (unused (codes "z")) }
    ensures output_read { IsFinding reading_model (reads_output (codes "y") (codes "z")) }
{}

/// Runs of two small guards are sorted by what their faults do.
pub fn small_runs_are_sorted()
    ensures right { outcome_of parity_code inverter_layout 1 detect 1 ((false ∷ []) ∷ (true ∷ []) ∷ []) ((false ∷ false ∷ false ∷ false ∷ []) ∷ (true ∷ true ∷ true ∷ false ∷ []) ∷ []) ≡ right }
    ensures alarmed { outcome_of parity_code inverter_layout 1 detect 1 ((false ∷ []) ∷ (true ∷ []) ∷ []) ((false ∷ false ∷ false ∷ false ∷ []) ∷ (false ∷ false ∷ true ∷ true ∷ []) ∷ []) ≡ alarmed }
    ensures earlier { outcome_of parity_code inverter_layout 1 detect 1 ((false ∷ []) ∷ (true ∷ []) ∷ (false ∷ []) ∷ []) ((false ∷ false ∷ false ∷ false ∷ []) ∷ (false ∷ false ∷ true ∷ true ∷ []) ∷ (true ∷ true ∷ false ∷ false ∷ []) ∷ []) ≡ alarmed }
    ensures wrong { outcome_of parity_code inverter_layout 1 detect 1 ((false ∷ []) ∷ (true ∷ []) ∷ []) ((false ∷ false ∷ false ∷ false ∷ []) ∷ (false ∷ false ∷ false ∷ false ∷ []) ∷ []) ≡ wrong }
    ensures decoded { outcome_of hamming_three counter_layout 4 correct 1 counted counted_with_fault ≡ decoded }
{}

/// Words over latches that don't fit a source with the one latch q.
pub fn small_words_are_refused()
    ensures no_such_net { layout_fault inverter_model (with_state_words ((codes "zz" ∷ []) ∷ [])) ≡ Some (no_such_net (codes "zz")) }
    ensures two_words { layout_fault inverter_model (with_state_words ((codes "q" ∷ []) ∷ (codes "q" ∷ []) ∷ [])) ≡ Some (in_two_words (codes "q")) }
    ensures left_out { layout_fault inverter_model (with_state_words []) ≡ Some (not_in_a_word (codes "q")) }
    ensures fits { layout_fault inverter_model (with_state_words ((codes "q" ∷ []) ∷ [])) ≡ None }
{}

/// What an S-box, a linear layer and two copies of a placed model give in one cycle.
pub fn small_sources_have_a_meaning()
    ensures table { SourceCycle box_file cipher_library box_model (false ∷ false ∷ false ∷ false ∷ []) [] (false ∷ false ∷ true ∷ true ∷ []) [] }
    ensures linear { SourceCycle layer_file cipher_library layer_model (true ∷ true ∷ false ∷ []) [] (false ∷ true ∷ []) [] }
    ensures copies { SourceCycle copies_file empty_library copies_model (true ∷ false ∷ []) [] (true ∷ false ∷ []) [] }
{}

/// A file in which a cell reads a later one, and the netlist of gates that is written for it.
pub fn small_flat_texts_are_written()
    ensures named { IsNamed forward_named }
    ensures file { file_of forward_named ≡ forward_file }
    ensures text { text_of 0 forward_file ≡ forward_text }
    ensures reads { Reads forward_text forward_file }
    ensures flat { IsFlat forward_file backward_file empty_library }
    ensures flat_text { IsFlatText backward_text forward_text empty_library }
{}

/// A machine of gates means what its source means.
pub fn small_source_is_elaborated()
    ensures machine { IsMachineOf inverter_file empty_library inverter_model inverter_machine }
    ensures elaborated { IsElaborated inverter_file empty_library inverter_model inverter_elaborated }
{}

/// Models that place each other, and a net that stands for a port of both kinds, which reads itself. As a file to be
/// computed line by line the latter is at fault first at its output, and only then at its `.subckt`.
pub fn small_pairs_of_models_are_refused()
    ensures ring { IsRefusedWith ring_of_models empty_library (recursion (codes "m")) }
    ensures around { IsRefusedWith around_file empty_library (loop (codes "y" ∷ [])) }
    ensures order { order_fault around_file ≡ Some (unordered 3) }
    ensures placement { order_fault ring_of_models ≡ Some (has_subckt 2) }
{}

/// A chain of seventeen steps from the main model is too deep, and the model at its end is told.
pub fn small_chain_is_too_deep()
    ensures { IsRefusedWith chain_file empty_library (too_deep (codes "r")) }
{}

/// Small settings and a small library keep what holds of all.
pub fn small_settings_are_settings()
    ensures settings { IsSettings settings_read }
    ensures library { IsLibrary cipher_library }
{}

/// Files of one model that are refused, each with what is told.
pub fn small_models_are_refused()
    ensures twice { IsRefusedWith driven_twice empty_library (twice (codes "y")) }
    ensures undriven { IsRefusedWith not_driven empty_library (undriven (codes "y")) }
    ensures edges { IsRefusedWith two_edges empty_library (bad_clocking (codes "b")) }
    ensures clock { IsRefusedWith clock_is_read empty_library (bad_clocking (codes "c")) }
    ensures reserved { IsRefusedWith guard_is_named empty_library (reserved (codes "guard:x")) }
{}

/// A source that places a model is sound.
pub fn small_sources_are_taken()
    ensures { IsSound placing_file empty_library }
{}
