// Laws of cones as a walk finds them.
ghost use Rattle.std.specs.Prelude.{◌≡◌, ◌↔◌, ◌⊎◌, Bool, Contains, IsTrue, List};
ghost use Rattle.netlist_spec.specs.Covers.{Library};
ghost use Rattle.netlist_spec.specs.Netlist.{File, Model, Name, Statement, stands_in};
ghost use Rattle.netlist_spec.specs.Cones.{AreMarked, IsInCone, IsReached};
ghost use Rattle.netlist_spec.specs.Sound.{reads};
ghost use Rattle.size_laws.specs.ConeMarks.{IsWalked, statements_of};

/// The marks that a walk through the cone of a net leaves are those of the cone. A net is reached from another if it is
/// that net, or is read by a statement of its cone.
pub fn walks_mark_cones()
    ensures marks { (file : File) (library : Library) (m : Model) (x : Name) (marks : List Bool)
        → IsWalked file library m x marks ↔ AreMarked (IsInCone file library m x) (statements_of m) marks }
    ensures reached { (file : File) (library : Library) (m : Model) (x k : Name)
        → IsReached file library m x k
        ↔ ((x ≡ k) ⊎ ((s : Statement) × Contains (statements_of m) s × IsInCone file library m x s × IsTrue (stands_in k (reads file library s)))) }
{}
