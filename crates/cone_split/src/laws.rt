// Laws of ranges and cones: each is the contract of a function that does nothing.
ghost use Rattle.std.specs.Prelude.{◌≡◌, ℕ, ◌≤◌, Bool, List, ◌++◌, length, map, sum};
ghost use Rattle.std.specs.List.{AllZip};
ghost use Rattle.netlist_spec.specs.Gates.{AnswersWithin, GateForm, GateList, IsEvaluation, IsGateList, Machine};
ghost use Rattle.netlist_spec.specs.Cones.{GateConeCost};
ghost use Rattle.netlist_spec.specs.GateRanges.{LiesIn, Region};
ghost use Rattle.netlist_spec.specs.SourceRun.{Bits};
ghost use Rattle.gate_net.specs.GateNet.{net_count};
ghost use Rattle.cone_split.specs.Cones.{IsConeSize};
ghost use Rattle.cone_split.specs.Ranges.{AllLead, ReadsAlone};

/// In valuations in which the gates of a range have their answers, whatever bits other nets have, the bits of the range
/// depend on those of the nets that it reads from outside.
pub fn ranges_answer_alone()
    ensures { (net : GateList) (leaf : List ℕ) (r : Region) → IsGateList net → net.leaves ≤ r.first
        → r.end ≤ net_count net → ReadsAlone net leaf r → (v w : ℕ → Bool)
        → AnswersWithin net r.first r.end v → AnswersWithin net r.first r.end w
        → map v leaf ≡ map w leaf → (n : ℕ) → LiesIn r n → v n ≡ w n }
{}

/// What a range reads and where its gates lead stays when gates are appended behind it, and an evaluation of the longer
/// list is one of the old gates.
pub fn ranges_stay()
    ensures reads { (net : GateList) (more : List GateForm) (leaf : List ℕ) (r : Region)
        → r.end ≤ net_count net → ReadsAlone net leaf r
        → ReadsAlone (record net { gates = net.gates ++ more }) leaf r }
    ensures leads { (net : GateList) (more : List GateForm) (r : Region)
        → AllLead net r → AllLead (record net { gates = net.gates ++ more }) r }
    ensures values { (net : GateList) (more : List GateForm) (leaves : Bits) (v : ℕ → Bool)
        → IsEvaluation (record net { gates = net.gates ++ more }) leaves v → IsEvaluation net leaves v }
{}

/// The cone of some roots has one size, which is at most the number of all gates, and at most the costs of the cones of
/// its roots together.
pub fn cones_have_one_size()
    ensures one { (net : GateList) (roots : List ℕ) (m n : ℕ)
        → IsConeSize net roots m → IsConeSize net roots n → m ≡ n }
    ensures within { (net : GateList) (roots : List ℕ) (n : ℕ)
        → IsConeSize net roots n → n ≤ length net.gates }
    ensures costs { (m : Machine) (roots costs : List ℕ) (n : ℕ)
        → AllZip (GateConeCost m) roots costs → IsConeSize m.net roots n → n ≤ sum costs }
{}
