// Laws of sums that come to a size, or stop.
ghost use Rattle.std.specs.Prelude.{◌≡◌, ℕ, ◌+◌, ◌*◌, ◌^◌, ◌<◌, ◌≤◌, Bool, List, [], ◌∷◌, ◌++◌, Some, length, min, slice_get, slice_index_or};
ghost use Rattle.std.specs.List.{AllZip};
ghost use Rattle.guard_spec.specs.Codes.{Code, IsCode, Mode, correct, data_places, detect, rail_count, weight};
ghost use Rattle.netlist_spec.specs.Covers.{Library};
ghost use Rattle.netlist_spec.specs.Models.{latch_inputs, output_nets};
ghost use Rattle.netlist_spec.specs.Netlist.{File, Model, Name};
ghost use Rattle.netlist_spec.specs.Cones.{AreMarked, ConeCostOf, marked_sum};
ghost use Rattle.guard_spec.specs.Plain.{AreNets, IsPlain, IsSizeWith, corrector_cost, rail_cost, word_cost};
ghost use Rattle.guard_spec.specs.Words.{IsLayout, Layout, Settings, Words};
ghost use Rattle.size_laws.specs.Partial.{IsBitCost, IsPartialSize, IsWordCost, NeedsWord};

/// The cost of a word, bit by bit: each bit adds its cost, and once more for each 1 of its row.
pub fn word_costs_add_up()
    ensures none { (code : Code) → word_cost code [] ≡ code.columns }
    ensures more { (code : Code) (costs : List ℕ) (c : ℕ) → IsCode code → length costs < data_places code
        → word_cost code (costs ++ c ∷ []) ≡ word_cost code costs + c * (1 + weight (slice_index_or code.rows (length costs) [])) }
    ensures front { (code : Code) (costs more : List ℕ) → word_cost code costs ≤ word_cost code (costs ++ more) }
    // Costs may be cut at a limit where the sum is.
    ensures cut { (code : Code) (most : ℕ) (costs cut : List ℕ) → AllZip (λ c k. k ≡ min c most) costs cut
        → min (word_cost code cut) most ≡ min (word_cost code costs) most }
{}

/// A size, word by word: it begins with the rails, and is whole after the last word.
pub fn partial_sizes_add_up()
    ensures none { (file : File) (library : Library) (m : Model) (code : Code) (mode : Mode) (radius rails : ℕ) (l : Layout)
        → IsPartialSize file library m code mode radius rails l 0 0 (rails * rail_cost code l) }
    ensures state { (file : File) (library : Library) (m : Model) (code : Code) (mode : Mode) (radius rails : ℕ) (l : Layout) (i j : ℕ)
        (word : List ℕ) (nets : List Name) (n c : ℕ) → slice_get l.state i ≡ Some word
        → IsPartialSize file library m code mode radius rails l i j n → AreNets (latch_inputs m) word nets
        → IsWordCost file library m code mode radius l.state nets c
        → IsPartialSize file library m code mode radius rails l (i + 1) j (n + (length word + code.columns) + c) }
    ensures output { (file : File) (library : Library) (m : Model) (code : Code) (mode : Mode) (radius rails : ℕ) (l : Layout) (i j : ℕ)
        (word : List ℕ) (nets : List Name) (n c : ℕ) → slice_get l.output j ≡ Some word
        → IsPartialSize file library m code mode radius rails l i j n → AreNets (output_nets m) word nets
        → IsWordCost file library m code mode radius l.state nets c
        → IsPartialSize file library m code mode radius rails l i (j + 1) (n + c) }
    ensures all { (file : File) (library : Library) (m : Model) (code : Code) (mode : Mode) (radius rails : ℕ) (l : Layout) (i j n : ℕ)
        → length l.state ≤ i → length l.output ≤ j
        → IsPartialSize file library m code mode radius rails l i j n → IsSizeWith file library m code mode radius rails l n }
{}

/// A sum that stops, after some words or within one, is at most the size. So where it is too large, the size is.
pub fn partial_sizes_stay_below()
    ensures words { (file : File) (library : Library) (m : Model) (code : Code) (mode : Mode) (radius rails : ℕ) (l : Layout) (i j p n : ℕ)
        → IsPartialSize file library m code mode radius rails l i j p
        → IsSizeWith file library m code mode radius rails l n → p ≤ n }
    ensures state { (file : File) (library : Library) (m : Model) (code : Code) (mode : Mode) (radius rails : ℕ) (l : Layout) (i j : ℕ)
        (word : List ℕ) (nets more : List Name) (costs : List ℕ) (p n : ℕ) → slice_get l.state i ≡ Some word
        → IsPartialSize file library m code mode radius rails l i j p → AreNets (latch_inputs m) word (nets ++ more)
        → AllZip (IsBitCost file library m code mode radius l.state) nets costs
        → IsSizeWith file library m code mode radius rails l n → p + (length word + code.columns) + word_cost code costs ≤ n }
    ensures output { (file : File) (library : Library) (m : Model) (code : Code) (mode : Mode) (radius rails : ℕ) (l : Layout) (i j : ℕ)
        (word : List ℕ) (nets more : List Name) (costs : List ℕ) (p n : ℕ) → slice_get l.output j ≡ Some word
        → IsPartialSize file library m code mode radius rails l i j p → AreNets (output_nets m) word (nets ++ more)
        → AllZip (IsBitCost file library m code mode radius l.state) nets costs
        → IsSizeWith file library m code mode radius rails l n → p + word_cost code costs ≤ n }
{}

/// The cost of a bit from that of its cone. A sum of correctors that stops is at most the cost in correction.
pub fn bit_costs_add_up()
    ensures detect { (file : File) (library : Library) (m : Model) (code : Code) (radius : ℕ) (state : Words) (x : Name) (cone : ℕ)
        → ConeCostOf file library m x cone → IsBitCost file library m code detect radius state x (2 + cone) }
    ensures correct { (file : File) (library : Library) (m : Model) (code : Code) (radius : ℕ) (state : Words) (x : Name) (cone : ℕ)
        → ConeCostOf file library m x cone → (marks : List Bool) → AreMarked (NeedsWord file library m x) state marks
        → IsBitCost file library m code correct radius state x (2 + cone + marked_sum (λ w. corrector_cost code radius (length w)) state marks) }
    ensures within { (file : File) (library : Library) (m : Model) (code : Code) (radius : ℕ) (state : Words) (x : Name) (cone : ℕ)
        → ConeCostOf file library m x cone → (front rest : Words) (marks : List Bool) (n : ℕ)
        → state ≡ front ++ rest → AreMarked (NeedsWord file library m x) front marks
        → IsBitCost file library m code correct radius state x n
        → 2 + cone + marked_sum (λ w. corrector_cost code radius (length w)) front marks ≤ n }
    ensures bound { (code : Code) (t m : ℕ) → IsCode code → m ≤ data_places code
        → corrector_cost code t m ≤ 12 * 16 + t * 2 ^ 28 * (16 + t) + 2 * 12 + 1 }
{}

/// A layout has at most one size, whether or not it fits. Where a sum stops above 1,000,000, there is a size, and it is
/// above that too.
pub fn sizes_stand_alone()
    ensures alone { (file : File) (s : Settings) (m : Model) (l : Layout) (n k : ℕ)
        → IsPlain file s.library m s.code s.mode s.bound l n → IsPlain file s.library m s.code s.mode s.bound l k → n ≡ k }
    ensures stopped { (file : File) (s : Settings) (m : Model) (l : Layout) (i j p : ℕ) → IsLayout m s l
        → IsPartialSize file s.library m s.code s.mode s.bound (rail_count s.mode s.bound) l i j p → 1000000 < p
        → (n : ℕ) × IsPlain file s.library m s.code s.mode s.bound l n × (1000000 < n) }
{}
