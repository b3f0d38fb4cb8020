// Laws of rows of cells: each is the contract of a function that does nothing.
ghost use Rattle.std.specs.Prelude.{◌≡◌, ℕ, ◌<◌, ◌++◌, List};
ghost use Rattle.std.specs.List.{AllByRecursion, flat_map};
ghost use Rattle.netlist_spec.specs.Gates.{GateForm, GateList, Machine};
ghost use Rattle.guard_spec.specs.Codes.{Code};
ghost use Rattle.guard_spec.specs.Words.{Layout};
ghost use Rattle.gate_net.specs.GateNet.{net_count};
ghost use Rattle.gate_net.specs.Words.{WordNets, nets_of};
ghost use Rattle.cone_split.specs.Ranges.{KeepsGates};
ghost use Rattle.alarm_rails.specs.Rail.{SomeIsNone};
ghost use Rattle.guard_laws.specs.Rows.{IsRailRange, IsRangeOf};
ghost use Rattle.guard_cells.specs.Cells.{AreCells, Cell, end_from, ranges_from};

use cone_split::ranges_stay;
use gate_net::gates_answer_in_ranges;

/// The ranges of cells stay where more gates stand behind them, and a row of cells behind a row of cells is one row. So it
/// is for copies and check bits, and for rails over some words.
pub fn rows_of_cells_join()
    ensures ranges { (first : ℕ) (cs ds : List Cell)
        → ranges_from first (cs ++ ds) ≡ ranges_from first cs ++ ranges_from (end_from first cs) ds }
    ensures end { (first : ℕ) (cs ds : List Cell) → end_from first (cs ++ ds) ≡ end_from (end_from first cs) ds }
    ensures stay { (leaf : List ℕ) (m : Machine) (code : Code) (l : Layout) (first : ℕ) (cs : List Cell) (net : GateList) (more : List GateForm)
        → AreCells (λ net r. IsRangeOf net leaf m code l r) first cs net
        → AllByRecursion (λ r. (r.first < r.end) × IsRangeOf (record net { gates = net.gates ++ more }) leaf m code l r)
        (ranges_from first cs) }
    ensures join { (leaf : List ℕ) (m : Machine) (code : Code) (l : Layout) (first : ℕ) (cs ds : List Cell) (mid net : GateList)
        → AreCells (λ net r. IsRangeOf net leaf m code l r) first cs mid → KeepsGates mid net
        → AreCells (λ net r. IsRangeOf net leaf m code l r) (net_count mid) ds net
        → AreCells (λ net r. IsRangeOf net leaf m code l r) first (cs ++ ds) net }
    ensures rails_stay { (code : Code) (words : List WordNets) (first : ℕ) (cs : List Cell) (net : GateList) (more : List GateForm)
        → AreCells (λ net r. IsRailRange net (flat_map nets_of words) (SomeIsNone code words) r) first cs net
        → AllByRecursion (λ r. (r.first < r.end) × IsRailRange (record net { gates = net.gates ++ more }) (flat_map nets_of words) (SomeIsNone code words) r)
        (ranges_from first cs) }
    ensures rails_join { (code : Code) (words : List WordNets) (first : ℕ) (cs ds : List Cell) (mid net : GateList)
        → AreCells (λ net r. IsRailRange net (flat_map nets_of words) (SomeIsNone code words) r) first cs mid → KeepsGates mid net
        → AreCells (λ net r. IsRailRange net (flat_map nets_of words) (SomeIsNone code words) r) (net_count mid) ds net
        → AreCells (λ net r. IsRailRange net (flat_map nets_of words) (SomeIsNone code words) r) first (cs ++ ds) net }
{
    ranges_stay();
    gates_answer_in_ranges();
}
