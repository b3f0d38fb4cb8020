//! Laws of written lines.

ghost use Rattle.std.specs.Prelude.{◌≡◌, ℕ, ◌^◌, ◌<◌, ◌++◌, List};
ghost use Rattle.std.specs.List.{AllByRecursion, flat_map};
ghost use Rattle.netlist_spec.specs.Lines.{logical_lines};
ghost use Rattle.netlist_spec.specs.Netlist.{Model};
ghost use Rattle.netlist_spec.specs.Statements.{Said};
ghost use Rattle.netlist_spec.specs.Text.{line_text, model_text, written_lines};
ghost use Rattle.netlist_spec.specs.WrittenLines.{HasNoFeed, HasPlainNames, HasPlainWords, comment_line, spelled_lines};

/// The logical lines of a written text are the lines that it spells, numbered from 1, and behind a comment line from 2.
pub fn written_lines_are_cut_back()
    ensures lines { (lines : List Said) → AllByRecursion HasPlainWords lines → logical_lines (flat_map line_text lines) ≡ spelled_lines 1 lines }
    ensures behind_comment { (comment : List ℕ) (lines : List Said) → HasNoFeed comment → AllByRecursion HasPlainWords lines
        → logical_lines (comment_line comment ++ flat_map line_text lines) ≡ spelled_lines 2 lines }
    ensures written { (unknown : ℕ) (m : Model) → unknown < 2 ^ 64 → AllByRecursion HasPlainWords (written_lines m)
        → logical_lines (model_text unknown m) ≡ spelled_lines 2 (written_lines m) }
    ensures words { (said : Said) → HasPlainNames said → HasPlainWords said }
{}
