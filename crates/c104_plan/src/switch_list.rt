//! The switches of a plan.
ghost use Rattle.std.specs.Prelude.{◌≡◌, ◌<◌, [], ◌∷◌, ◌++◌, false, bytes_eq, length, position, IfOk, IfSome, IsTrue, OnErr, OnOk};
ghost use Rattle.std.specs.List.{list_any};
ghost use Rattle.c104_plan.specs.TextWords.{is_name};

use crate::name_index::NameIndex;
use crate::names::Name;
use c104_token::NoMemory;
use std::alloc::{AllocError, Global};
use std::fmt::{self, Debug, Formatter, Write};
use std::marker::Model;

/// Switches, which are names, by number, and found by name.
#[derive(Drop)]
pub struct SwitchList {
    list: Vec<Name>,
    index: NameIndex,
}

impl Model for SwitchList {
    ghost use Rattle.std.specs.Prelude.{◌≡◌, ℕ, List};

    ghost Value = { List (List ℕ) };

    ghost view = { λ switches. switches.list.items };

    ghost invariant = { λ switches. switches.index ≡ switches.list.items };
}

impl Debug for SwitchList {
    fn fmt<W: Write>(&self, f: &mut Formatter<W>) -> Result<(), fmt::Error> {
        self.list.fmt(f)
    }
}

impl SwitchList {
    /// No switch yet.
    pub fn new(alloc: Global) -> Self
        ensures { result ≡ [] }
    {
        SwitchList {
            list: Vec::new(alloc),
            index: NameIndex::new(alloc),
        }
    }

    /// One more switch, of a name that none has.
    pub fn push(&mut self, alloc: Global, name: &[u8]) -> Result<(), NoMemory>
        requires named { IsTrue (is_name name.now) }
        requires free { list_any (λ other. bytes_eq other name.now) self.old ≡ false }
        ensures switches { OnOk result (self.new ≡ self.old ++ name.now ∷ []) }
        ensures unchanged { OnErr result (self.new ≡ self.old) }
    {
        let own = Name::new(alloc, name)?;
        self.list.reserve(1)?;
        self.index.insert(alloc, name)?;
        self.list.push_reserved(own);
        Ok(())
    }

    /// The names, by number.
    pub(crate) fn as_slice(&self) -> &[Name]
        ensures { result.now ≡ self.now }
    {
        self.list.as_slice()
    }

    /// How many switches there are.
    pub fn len(&self) -> usize
        ensures { result ≡ length self.now }
    {
        self.list.len()
    }

    /// The number of the switch of this name.
    pub(crate) fn number_of(&self, name: &[u8]) -> Option<usize>
        ensures number { result ≡ position (λ other. bytes_eq other name.now) self.now }
        ensures inside { IfSome result (λ number. number < length self.now) }
    {
        self.index.number_of(name)
    }

    /// Whether a switch has this name.
    pub(crate) fn has(&self, name: &[u8]) -> bool
        ensures { result ≡ list_any (λ other. bytes_eq other name.now) self.now }
    {
        self.index.has(name)
    }

    /// A copy of the switches.
    pub(crate) fn copy(&self) -> Result<Self, AllocError>
        ensures { IfOk result (λ copy. copy ≡ self.now) }
    {
        let list = self.list.clone()?;
        let index = self.index.copy()?;
        Ok(SwitchList { list, index })
    }
}
