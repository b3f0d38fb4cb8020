// Distinct names by their places.
ghost use Rattle.std.specs.Prelude.{◌≡◌, ◌∷◌, ◌++◌, [], Some, false, slice_get, OnOk, OnErr, IfSome, IfNone};
ghost use Rattle.netlist_spec.specs.Netlist.{stands_in};

use indexmap::IndexSet;
use std::alloc::{AllocError, Global};
use std::marker::Model;

/// Distinct names, each found by its bytes.
#[derive(Drop)]
pub struct NameIndex {
    set: IndexSet<Vec<u8>>,
    alloc: Global,
}

impl Model for NameIndex {
    ghost use Rattle.std.specs.Prelude.{List, ℕ};
    ghost use Rattle.imp_text.specs.Names.{names_in};

    ghost Value = { List (List ℕ) };

    ghost view = { λ names. names_in names.set.keys };
}

impl NameIndex {
    /// No names.
    pub fn new(alloc: Global) -> NameIndex
        ensures { result ≡ [] }
    {
        NameIndex {
            set: IndexSet::new(alloc),
            alloc,
        }
    }

    /// The place of a name, and None exactly where it isn't there.
    pub fn find(&self, name: &[u8]) -> Option<usize>
        ensures place { IfSome result (λ i. slice_get self.now i ≡ Some name.now) }
        ensures absent { IfNone result (stands_in name.now self.now ≡ false) }
    {
        self.set.get_index_of(name)
    }

    /// Appends a name that isn't there yet.
    pub fn push(&mut self, name: &[u8]) -> Result<(), AllocError>
        requires { stands_in name.now self.old ≡ false }
        ensures names { OnOk result (self.new ≡ self.old ++ name.now ∷ []) }
        ensures err { OnErr result (self.new ≡ self.old) }
    {
        self.set.insert(name.to_vec(self.alloc)?)?;
        Ok(())
    }
}
