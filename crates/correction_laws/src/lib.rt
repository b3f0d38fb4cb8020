//! From what correctors and copies promise to a guard that corrects.
#![tactic(auto)]

ghost use Rattle.std.specs.Prelude.{◌≡◌, ℕ, ◌+◌, ◌<◌, ◌≤◌, ◌++◌, Bool, true, false, AllPairs, Contains, IsTrue, List, [], ◌∷◌, length, map, slice_get, Some};
ghost use Rattle.std.specs.List.{AllZip, range_with_len};
ghost use Rattle.netlist_spec.specs.CellBits.{Bit, stands_before};
ghost use Rattle.guard_spec.specs.Codes.{Code, Mode, correct, detect};
ghost use Rattle.guard_spec.specs.Count.{IsNear, StateWordsAre};
ghost use Rattle.netlist_spec.specs.Gates.{AnswersWithin, GateForm, GateList, IsEvaluation, IsMachine, Machine};
ghost use Rattle.guard_spec.specs.Plain.{IsMachineSizeWith, column_cost, corrector_cost, rail_cost};
ghost use Rattle.netlist_spec.specs.Cones.{marked_sum};
ghost use Rattle.guard_spec.specs.Regions.{Guarded};
ghost use Rattle.netlist_spec.specs.GateRanges.{Region};
ghost use Rattle.netlist_spec.specs.SourceRun.{Bits};
ghost use Rattle.guard_spec.specs.Rails.{SomeNoCodeword};
ghost use Rattle.guard_spec.specs.Words.{IsPartition, Layout, Words, codewords};
ghost use Rattle.gate_net.specs.GateNet.{net_count};
ghost use Rattle.cone_split.specs.Cones.{IsConeSize};
ghost use Rattle.cone_split.specs.Ranges.{IsCopy};
ghost use Rattle.predictor.specs.Columns.{column_roots};
ghost use Rattle.guard_laws.specs.Copies.{range_of};
ghost use Rattle.guard_laws.specs.Places.{latches_of_words};
ghost use Rattle.guard_laws.specs.Promised.{IsGuardOf, cell_count};
ghost use Rattle.alarm_rails.specs.Rail.{IsRail};
ghost use Rattle.guard_laws.specs.Watched.{watched_words};
ghost use Rattle.guard_laws.specs.Rows.{AreInRow};
ghost use Rattle.corrector.specs.Corrected.{IsCorrectorRange};
ghost use Rattle.correction_laws.specs.Few.{IsFew, NetCost};
ghost use Rattle.correction_laws.specs.FromJoined.{IsJoinedCheck, IsJoinedCopy, IsOver};
ghost use Rattle.correction_laws.specs.Joined.{AreCorrectedNets, AreCorrectors, Corrector, IsCorrector, IsJoined, IsServed};
ghost use Rattle.correction_laws.specs.Room.{AreNeeded};
ghost use Rattle.guard_laws.specs.Within.{IsMadeWithin, IsRangeWithin};

/// Where the places that are shown are near the codewords of a state, a net of the joined list has the bit that the net of
/// the source has at the inputs and that state, if each word that it needs has a corrector.
pub fn joined_lists_evaluate_machines()
    ensures { (source : Machine) (code : Code) (l : Layout) (t k : ℕ) (joined : GateList) (correctors : List Corrector) (nets : List ℕ) (first : ℕ)
        → IsMachine source → IsPartition (length source.latches) k l.state → IsJoined source code l t joined correctors nets first
        → (u w : ℕ → Bool) (x s : Bits) → AnswersWithin joined joined.leaves (net_count joined) u
        → map u (range_with_len 0 source.inputs) ≡ x → length s ≡ length source.latches
        → StateWordsAre code (IsNear code correct t s) l.state (map u (range_with_len source.inputs (latches_of_words code l.state))) 0
        → IsEvaluation source.net (x ++ s) w → (root : ℕ) → IsServed source correctors root
        → (m : ℕ) → root < net_count source.net → IsOver source nets first root m → u m ≡ w root }
{}

/// Copies and check bits out of a joined list are ranges of a guard that corrects, also where more gates stand behind.
pub fn joined_copies_are_ranges()
    ensures copy { (source : Machine) (code : Code) (l : Layout) (t k : ℕ) (joined : GateList) (correctors : List Corrector) (nets : List ℕ) (first : ℕ)
        → IsMachine source → IsPartition (length source.latches) k l.state → IsJoined source code l t joined correctors nets first
        → (bit : Bit) (old new : GateList) (last : ℕ) → new.leaves ≡ joined.leaves
        → IsJoinedCopy source code l joined correctors nets first bit old new last
        → IsRangeWithin new source.inputs (latches_of_words code l.state) source code correct t l (range_of bit old new) }
    ensures check { (source : Machine) (code : Code) (l : Layout) (t k : ℕ) (joined : GateList) (correctors : List Corrector) (nets : List ℕ) (first : ℕ)
        → IsMachine source → IsPartition (length source.latches) k l.state → IsJoined source code l t joined correctors nets first
        → (bit : Bit) (old new : GateList) (last : ℕ) → new.leaves ≡ joined.leaves
        → IsJoinedCheck source code l joined correctors nets first bit old new last
        → IsRangeWithin new source.inputs (latches_of_words code l.state) source code correct t l (range_of bit old new) }
    ensures stays { (net : GateList) (more : List GateForm) (inputs latches : ℕ) (source : Machine) (code : Code) (mode : Mode) (radius : ℕ) (l : Layout) (r : Region)
        → r.end ≤ net_count net → IsRangeWithin net inputs latches source code mode radius l r
        → IsRangeWithin (record net { gates = net.gates ++ more }) inputs latches source code mode radius l r }
{}

/// What is appended for a word is its corrector, a word may be left out, correctors stay where gates are appended behind, and
/// a corrector more joins them. So a loop over the state words makes the correctors of a joined list.
pub fn correctors_are_joined()
    ensures appended { (code : Code) (t at : ℕ) (w : List ℕ) (old new : GateList) (nets : List ℕ)
        → at + (length w + code.columns) ≤ new.leaves
        → IsCorrectorRange code t (record { places = range_with_len at (length w); checks = range_with_len (at + length w) code.columns }) old new nets
        → IsCorrector new code t at (record { word = w; nets = nets; first = net_count old; end = net_count new; serves = true }) }
    ensures left_out { (net : GateList) (code : Code) (t at n : ℕ) (w nets : List ℕ)
        → length nets ≡ length w → ((k : ℕ) → Contains nets k → k < net.leaves)
        → IsCorrector net code t at (record { word = w; nets = nets; first = n; end = n; serves = false }) }
    ensures stay { (net : GateList) (more : List GateForm) (code : Code) (t at from : ℕ) (cs : List Corrector) (end : ℕ)
        → end ≤ net_count net → AreCorrectors net code t at from cs end
        → AreCorrectors (record net { gates = net.gates ++ more }) code t at from cs end }
    ensures one_more { (net : GateList) (code : Code) (t at from : ℕ) (cs : List Corrector) (end : ℕ) (c : Corrector)
        → AreCorrectors net code t at from cs end → c.first ≡ end
        → IsCorrector net code t (at + latches_of_words code (map (λ d. d.word) cs)) c
        → AreCorrectors net code t at from (cs ++ c ∷ []) c.end }
    // Nets that are written by latch, word after word.
    ensures written { (cs : List Corrector) (c : Corrector) (after : Words) (latches k : ℕ) (old new : List ℕ)
        → IsPartition latches k (map (λ d. d.word) cs ++ c.word ∷ after) → AreCorrectedNets cs latches old
        → length new ≡ length old
        → ((p j n : ℕ) → slice_get c.word p ≡ Some j → slice_get c.nets p ≡ Some n → slice_get new j ≡ Some n)
        → ((j : ℕ) → (Contains c.word j → ⊥) → slice_get new j ≡ slice_get old j)
        → AreCorrectedNets (cs ++ c ∷ []) latches new }
{}

/// A copy of one net out of a joined list takes at most what its bit costs: the net's cone in the source, a corrector for each
/// word that it needs, and 2. A check bit takes at most the cost of its column.
pub fn joined_copies_cost_no_more()
    ensures copy { (source : Machine) (code : Code) (l : Layout) (t k : ℕ) (joined : GateList) (correctors : List Corrector) (nets : List ℕ) (first : ℕ)
        → IsMachine source → IsPartition (length source.latches) k l.state → IsJoined source code l t joined correctors nets first
        → (x m n : ℕ) (leaf : List ℕ) (old new : GateList) (last : ℕ) → IsOver source nets first x m
        → NetCost source code correct t l x n
        → IsCopy joined (m ∷ []) leaf old new last → net_count new ≤ net_count old + n }
    ensures check { (source : Machine) (code : Code) (l : Layout) (t k : ℕ) (joined : GateList) (correctors : List Corrector) (nets : List ℕ) (first : ℕ)
        → IsMachine source → IsPartition (length source.latches) k l.state → IsJoined source code l t joined correctors nets first
        → (xs ms costs : List ℕ) (j : ℕ) (leaf : List ℕ) (old new : GateList) (last : ℕ) → AllZip (IsOver source nets first) xs ms
        → AllZip (NetCost source code correct t l) xs costs
        → IsCopy joined (column_roots code j ms) leaf old new last → net_count new ≤ net_count old + column_cost code costs j }
    ensures cone { (source : Machine) (code : Code) (l : Layout) (t k : ℕ) (joined : GateList) (correctors : List Corrector) (nets : List ℕ) (first : ℕ)
        → IsMachine source → IsPartition (length source.latches) k l.state → IsJoined source code l t joined correctors nets first
        → (x m n size : ℕ) → IsOver source nets first x m → NetCost source code correct t l x n → IsConeSize joined (m ∷ []) size → size + 2 ≤ n }
    ensures cones { (source : Machine) (code : Code) (l : Layout) (t k : ℕ) (joined : GateList) (correctors : List Corrector) (nets : List ℕ) (first : ℕ)
        → IsMachine source → IsPartition (length source.latches) k l.state → IsJoined source code l t joined correctors nets first
        → (xs ms costs : List ℕ) (j size : ℕ) → AllZip (IsOver source nets first) xs ms → AllZip (NetCost source code correct t l) xs costs
        → IsConeSize joined (column_roots code j ms) size → size + length (column_roots code j ms) + 1 ≤ column_cost code costs j }
{}

/// Such ranges, the inits and the size make what the builder of a guard promises, in either mode. The size may be said of each
/// range alone.
pub fn ranges_within_make_a_promised_guard()
    ensures sized { (g : Guarded) (source : Machine) (code : Code) (mode : Mode) (radius rails : ℕ) (l : Layout) (watched : List ℕ)
        → IsMadeWithin g source code mode radius l watched (SomeNoCodeword g code l (length source.outputs)) → g.rails ≡ rails
        → map (λ r. r.init) g.machine.latches ≡ codewords code l.state (map (λ r. r.init) source.latches)
        → ((n : ℕ) → IsMachineSizeWith source code mode radius rails l n → cell_count g ≤ n)
        → IsGuardOf g source code mode radius rails l }
    ensures few { (g : Guarded) (source : Machine) (code : Code) (mode : Mode) (radius rails k : ℕ) (l : Layout) (watched : List ℕ)
        → IsMadeWithin g source code mode radius l watched (SomeNoCodeword g code l (length source.outputs)) → g.rails ≡ rails
        → map (λ r. r.init) g.machine.latches ≡ codewords code l.state (map (λ r. r.init) source.latches)
        → length g.machine.latches ≡ latches_of_words code l.state → IsPartition (length source.outputs) k l.output
        → ((r : Region) → Contains g.regions r → IsFew source code mode radius rails l r)
        → IsGuardOf g source code mode radius rails l }
{}

/// A joined list with correctors for needed words alone has room: its correctors together take at most the size of the guard.
pub fn needed_correctors_have_room()
    ensures needed { (source : Machine) (code : Code) (t : ℕ) (l : Layout) (rails j k n : ℕ)
        → IsPartition (length (map (λ r. r.d) source.latches)) j l.state → IsPartition (length source.outputs) k l.output
        → IsMachineSizeWith source code correct t rails l n → (marks : List Bool) → AreNeeded source l.state marks
        → marked_sum (λ w. corrector_cost code t (length w)) l.state marks ≤ n }
    ensures row { (net : GateList) (code : Code) (t at from : ℕ) (cs : List Corrector) (end : ℕ) → AreCorrectors net code t at from cs end
        → end ≤ from + marked_sum (λ w. corrector_cost code t (length w)) (map (λ c. c.word) cs) (map (λ c. c.serves) cs) }
{}

/// In detection a copy, a check bit and a rail take no more than they cost.
pub fn copies_cost_no_more()
    ensures copy { (source : Machine) (code : Code) (radius : ℕ) (l : Layout) (root n : ℕ) (leaf : List ℕ) (old new : GateList) (last : ℕ)
        → NetCost source code detect radius l root n → IsCopy source.net (root ∷ []) leaf old new last → net_count new ≤ net_count old + n }
    ensures check { (source : Machine) (code : Code) (radius : ℕ) (l : Layout) (roots costs : List ℕ) (j : ℕ) (leaf : List ℕ) (old new : GateList) (last : ℕ)
        → AllZip (NetCost source code detect radius l) roots costs → IsCopy source.net (column_roots code j roots) leaf old new last
        → net_count new ≤ net_count old + column_cost code costs j }
    ensures rail { (code : Code) (machine : Machine) (l : Layout) (p : ℕ) (old new : GateList) (last : ℕ)
        → IsRail code (watched_words machine code l p) old new last → net_count new ≤ net_count old + rail_cost code l }
{}

/// Ranges in the order of their bits, each with at most as many gates as its bit costs, take at most the size of a guard, in
/// either mode. That holds of the first ranges too, so there is room for the next.
pub fn few_gates_make_few_cells()
    ensures row { (source : Machine) (code : Code) (mode : Mode) (radius : ℕ) (l : Layout) (rails k n : ℕ)
        → IsPartition (length source.outputs) k l.output → IsMachineSizeWith source code mode radius rails l n
        → (at : ℕ) (rs : List Region) (end : ℕ) → AreInRow at rs end → AllPairs (λ r s. IsTrue (stands_before r.bit s.bit)) rs
        → ((r : Region) → Contains rs r → IsFew source code mode radius rails l r)
        → latches_of_words code l.state + end ≤ at + n }
    ensures guard { (source : Machine) (code : Code) (mode : Mode) (radius : ℕ) (l : Layout) (rails k n : ℕ)
        → IsPartition (length source.outputs) k l.output → IsMachineSizeWith source code mode radius rails l n
        → (g : Guarded) → AreInRow g.machine.net.leaves g.regions (net_count g.machine.net)
        → AllPairs (λ r s. IsTrue (stands_before r.bit s.bit)) g.regions
        → length g.machine.latches ≡ latches_of_words code l.state
        → ((r : Region) → Contains g.regions r → IsFew source code mode radius rails l r) → cell_count g ≤ n }
{}
