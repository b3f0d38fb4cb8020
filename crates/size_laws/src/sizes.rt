// Laws of costs and sizes: there is one of each.
ghost use Rattle.std.specs.Prelude.{◌≡◌, ℕ, ◌≤◌, length, Some};
ghost use Rattle.guard_spec.specs.Codes.{Code, Mode};
ghost use Rattle.netlist_spec.specs.Covers.{Library};
ghost use Rattle.netlist_spec.specs.Elaborated.{IsMachineOf};
ghost use Rattle.netlist_spec.specs.Gates.{Machine};
ghost use Rattle.netlist_spec.specs.Models.{latches_of, main_model, output_nets};
ghost use Rattle.netlist_spec.specs.Netlist.{File, Model, Name};
ghost use Rattle.netlist_spec.specs.Cones.{ConeCostOf, GateConeCost};
ghost use Rattle.guard_spec.specs.Plain.{IsMachinePlain, IsMachineSizeWith, IsPlain, IsSizeWith};
ghost use Rattle.netlist_spec.specs.Size.{whole_cost};
ghost use Rattle.guard_spec.specs.Words.{IsLayout, IsPartition, Layout, Settings};
ghost use Rattle.size_laws.specs.Sizes.{Fits, HoldsOfOne};

/// The cone of a net of a gate list has one cost.
pub fn gate_cones_have_one_cost()
    ensures { (m : Machine) (x : ℕ) → HoldsOfOne (GateConeCost m x) }
{}

/// A machine of gates has one size for each layout that fits it, as partitions do, and as a layout of its source does.
pub fn machines_have_one_size()
    ensures partitions { (m : Machine) (k : ℕ) (l : Layout) → IsPartition (length m.latches) k l.state
        → IsPartition (length m.outputs) k l.output → Fits (length m.latches) (length m.outputs) l }
    ensures source { (file : File) (library : Library) (m : Model) (machine : Machine) (s : Settings) (l : Layout)
        → IsMachineOf file library m machine → IsLayout m s l → Fits (length machine.latches) (length machine.outputs) l }
    ensures with { (m : Machine) (code : Code) (mode : Mode) (radius rails : ℕ) (l : Layout)
        → Fits (length m.latches) (length m.outputs) l → HoldsOfOne (IsMachineSizeWith m code mode radius rails l) }
    ensures plain { (m : Machine) (code : Code) (mode : Mode) (t : ℕ) (l : Layout)
        → Fits (length m.latches) (length m.outputs) l → HoldsOfOne (IsMachinePlain m code mode t l) }
{}

/// The cone of a net of a model has one cost. For the main model it is at most the whole cost.
pub fn cones_have_one_cost()
    ensures one { (file : File) (library : Library) (m : Model) (x : Name) → HoldsOfOne (ConeCostOf file library m x) }
    ensures within { (file : File) (library : Library) (m : Model) (x : Name) (n : ℕ)
        → main_model file ≡ Some m → ConeCostOf file library m x n → n ≤ whole_cost file library }
{}

/// A model has one size for each layout that fits it, as that of its settings does.
pub fn sources_have_one_size()
    ensures fits { (m : Model) (s : Settings) (l : Layout) → IsLayout m s l → Fits (length (latches_of m)) (length (output_nets m)) l }
    ensures with { (file : File) (library : Library) (m : Model) (code : Code) (mode : Mode) (radius rails : ℕ) (l : Layout)
        → Fits (length (latches_of m)) (length (output_nets m)) l
        → HoldsOfOne (IsSizeWith file library m code mode radius rails l) }
    ensures plain { (file : File) (m : Model) (s : Settings) (l : Layout)
        → IsLayout m s l → HoldsOfOne (IsPlain file s.library m s.code s.mode s.bound l) }
{}
