// The distinct names of a model, numbered in the order in which they were first seen.
ghost use Rattle.std.specs.Prelude.{◌≡◌, ◌∷◌, ◌++◌, ◌^◌, ◌<◌, ◌≤◌, [], Some, false, length, slice_get, IfOk, OnOk, OnErr, IfSome, IfNone};

use indexmap::IndexSet;
use std::alloc::{AllocError, Global};
use std::marker::Model;

/// The number of a name among those of its model, from 0.
#[derive(Clone, Copy, Debug, PartialEq, Eq)]
pub struct NameId(pub u32);

/// Distinct names, each 1 to 255 bytes, in the order in which they were first seen.
#[derive(Drop)]
pub struct Names {
    set: IndexSet<Vec<u8>>,
    alloc: Global,
}

impl Model for Names {
    ghost use Rattle.std.specs.Prelude.{List, ℕ, map, Vec};
    ghost use Rattle.imp_text.specs.Names.{names_in, AreNames};

    ghost Value = { List (List ℕ) };

    ghost view = { λ names. names_in names.set.keys };

    ghost invariant = { λ names. AreNames (names_in names.set.keys) };
}

impl Names {
    ghost use Rattle.netlist_spec.specs.Netlist.{stands_in};
    ghost use Rattle.imp_text.specs.Names.{AreNames, with_name};

    /// No names.
    pub fn new(alloc: Global) -> Names
        ensures { result ≡ [] }
    {
        Names {
            set: IndexSet::new(alloc),
            alloc,
        }
    }

    /// How many names there are.
    pub fn len(&self) -> u32
        ensures count { result ≡ length self.now }
        ensures are_names { AreNames self.now }
    {
        self.set.len() as u32
    }

    /// The number of a name, which goes last where it is new.
    pub fn intern(&mut self, name: &[u8]) -> Result<NameId, AllocError>
        requires some { 0 < length name.now }
        requires short { length name.now ≤ 255 }
        requires room { length self.old < 2 ^ 31 }
        ensures names { OnOk result (self.new ≡ with_name self.old name.now) }
        ensures place { IfOk result (λ id. slice_get self.new id.0 ≡ Some name.now) }
        ensures err { OnErr result (self.new ≡ self.old) }
        ensures are_names { AreNames self.new }
    {
        if let Some(id) = self.find(name) {
            return Ok(id);
        }
        self.push(name)
    }

    // Appends a name that isn't there yet.
    fn push(&mut self, name: &[u8]) -> Result<NameId, AllocError>
        requires some { 0 < length name.now }
        requires short { length name.now ≤ 255 }
        requires room { length self.old < 2 ^ 31 }
        requires absent { stands_in name.now self.old ≡ false }
        ensures names { OnOk result (self.new ≡ self.old ++ name.now ∷ []) }
        ensures place { IfOk result (λ id. slice_get self.new id.0 ≡ Some name.now) }
        ensures err { OnErr result (self.new ≡ self.old) }
        ensures are_names { AreNames self.new }
    {
        let place = self.set.len() as u32;
        self.set.insert(name.to_vec(self.alloc)?)?;
        Ok(NameId(place))
    }

    /// The number of a name, and None exactly where it isn't there.
    pub fn find(&self, name: &[u8]) -> Option<NameId>
        ensures place { IfSome result (λ id. slice_get self.now id.0 ≡ Some name.now) }
        ensures absent { IfNone result (stands_in name.now self.now ≡ false) }
        ensures are_names { AreNames self.now }
    {
        let place = self.set.get_index_of(name)?;
        Some(NameId(place as u32))
    }

    /// The name of that number.
    pub fn get(&self, id: NameId) -> &[u8]
        requires { id.0 < length self.now }
        ensures { slice_get self.now id.0 ≡ Some result.now }
    {
        &self.set[id.0 as usize]
    }
}
