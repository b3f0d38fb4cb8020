// A law of the sizes of check bits, as the contract of a function that needs no code.
ghost use Rattle.std.specs.Prelude.{ℕ, ◌+◌, ◌≤◌, List, length, map};
ghost use Rattle.std.specs.List.{AllZip};
ghost use Rattle.guard_spec.specs.Codes.{Code};
ghost use Rattle.netlist_spec.specs.Gates.{Machine};
ghost use Rattle.guard_spec.specs.Plain.{column_cost};
ghost use Rattle.netlist_spec.specs.Cones.{GateConeCost};
ghost use Rattle.cone_split.specs.Cones.{IsConeSize};
ghost use Rattle.predictor.specs.Columns.{column_roots};

use cone_split::cones_have_one_size;

/// What a check bit may take, the cone of its roots, a gate for each of them and one more, is at most what a column
/// costs where each bit costs its cone and 2.
pub fn check_bits_cost_no_more()
    ensures { (m : Machine) (code : Code) (j : ℕ) (roots cones : List ℕ) (size : ℕ)
        → AllZip (GateConeCost m) roots cones → IsConeSize m.net (column_roots code j roots) size
        → size + length (column_roots code j roots) + 1
        ≤ column_cost code (map (λ cone. 2 + cone) cones) j }
{
    cones_have_one_size();
}
