//! Names and their numbers.
ghost use Rattle.std.specs.{List.list_any, Prelude.{IfOk, IfSome, OnErr, OnOk, [], bytes_eq, false, length, position, ◌++◌, ◌<◌, ◌∷◌, ◌≡◌}};

use indexmap::IndexSet;
use std::alloc::{AllocError, Global};
use std::marker::Model;

/// Different names, numbered from 0 in the order in which they came, and found without a search through
/// all of them.
#[derive(Drop)]
pub(crate) struct NameIndex {
    set: IndexSet<Vec<u8>>,
}

impl Model for NameIndex {
    ghost use Rattle.std.specs.Prelude.{ℕ, List};
    ghost use Rattle.c104_plan.specs.PlanIndex.{texts};

    ghost Value = { List (List ℕ) };

    ghost view = { λ names. texts names.set.keys };
}

impl NameIndex {
    /// No name yet.
    pub(crate) fn new(alloc: Global) -> NameIndex
        ensures { result ≡ [] }
    {
        NameIndex {
            set: IndexSet::new(alloc),
        }
    }

    /// Adds a name that isn't there behind the others.
    pub(crate) fn insert(&mut self, alloc: Global, name: &[u8]) -> Result<(), AllocError>
        requires { list_any (λ other. bytes_eq other name.now) self.old ≡ false }
        ensures names { OnOk result (self.new ≡ self.old ++ name.now ∷ []) }
        ensures unchanged { OnErr result (self.new ≡ self.old) }
    {
        let name = name.to_vec(alloc)?;
        self.set.insert_full(name)?;
        Ok(())
    }

    /// The number of a name.
    pub(crate) fn number_of(&self, name: &[u8]) -> Option<usize>
        ensures number { result ≡ position (λ other. bytes_eq other name.now) self.now }
        ensures inside { IfSome result (λ number. number < length self.now) }
    {
        self.set.get_index_of(name)
    }

    /// Whether a name is there.
    pub(crate) fn has(&self, name: &[u8]) -> bool
        ensures { result ≡ list_any (λ other. bytes_eq other name.now) self.now }
    {
        self.set.contains(name)
    }

    /// A copy of the names.
    pub(crate) fn copy(&self) -> Result<Self, AllocError>
        ensures { IfOk result (λ copy. copy ≡ self.now) }
    {
        let set = self.set.clone()?;
        Ok(NameIndex { set })
    }
}
