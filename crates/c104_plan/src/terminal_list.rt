//! The terminals of a plan.
ghost use Rattle.std.specs.{List.list_any, Prelude.{IfOk, IfSome, OnErr, OnOk, Some, [], bytes_eq, false, length, map, position}};
ghost use Rattle.std.specs.Prelude.{slice_get, slice_set, ◌++◌, ◌<◌, ◌∷◌, ◌≡◌, ◌≤◌};
ghost use Rattle.c104_plan.specs.{PlanParts.without_first, Plans.Terminal as TheTerminal, RowPlans.with_ranges};

use crate::name_index::NameIndex;
use crate::plans::Terminal;
use std::alloc::{AllocError, Global};
use std::fmt::{self, Debug, Formatter, Write};
use std::marker::Model;

/// Terminals, by number, and found by name.
#[derive(Drop)]
pub struct TerminalList {
    list: Vec<Terminal>,
    names: NameIndex,
}

impl Model for TerminalList {
    ghost use Rattle.std.specs.Prelude.{◌≡◌, List, map};
    ghost use Rattle.c104_plan.specs.Plans.{Terminal as TheTerminal};

    ghost Value = { List TheTerminal };

    ghost view = { λ terminals. terminals.list.items };

    ghost invariant = { λ terminals.
        terminals.names ≡ map (λ (t : TheTerminal). t.name) terminals.list.items };
}

impl Debug for TerminalList {
    fn fmt<W: Write>(&self, f: &mut Formatter<W>) -> Result<(), fmt::Error> {
        self.list.fmt(f)
    }
}

impl TerminalList {
    /// No terminal yet.
    pub fn new(alloc: Global) -> Self
        ensures { result ≡ [] }
    {
        TerminalList {
            list: Vec::new(alloc),
            names: NameIndex::new(alloc),
        }
    }

    /// One more terminal, of a name that none has.
    pub fn push(&mut self, alloc: Global, terminal: Terminal) -> Result<(), AllocError>
        requires { list_any (λ (t : TheTerminal). bytes_eq t.name terminal.name) self.old ≡ false }
        ensures terminals { OnOk result (self.new ≡ self.old ++ terminal ∷ []) }
        ensures unchanged { OnErr result (self.new ≡ self.old) }
    {
        self.list.reserve(1)?;
        self.names.insert(alloc, terminal.name.as_bytes())?;
        self.list.push_reserved(terminal);
        Ok(())
    }

    /// The terminals keep their counts alone.
    pub fn forget_ranges(&mut self)
        ensures { self.new ≡ map without_first self.old }
    {
        forget_firsts(&mut self.list);
    }

    /// The terminals have these ranges, as far as there are ranges.
    pub(crate) fn set_ranges(&mut self, ranges: &[(u32, u32)])
        requires { length ranges.now ≤ length self.old }
        ensures { self.new ≡ with_ranges ranges.now self.old }
    {
        set_ranges(&mut self.list, ranges);
    }

    /// The terminals, by number.
    pub(crate) fn as_slice(&self) -> &[Terminal]
        ensures { result.now ≡ self.now }
    {
        self.list.as_slice()
    }

    /// How many terminals there are.
    pub fn len(&self) -> usize
        ensures { result ≡ length self.now }
    {
        self.list.len()
    }

    /// The number of the terminal of this name.
    pub(crate) fn number_of(&self, name: &[u8]) -> Option<usize>
        ensures number { result ≡
            position (λ (t : TheTerminal). bytes_eq t.name name.now) self.now }
        ensures inside { IfSome result (λ number. number < length self.now) }
    {
        self.names.number_of(name)
    }

    /// Whether a terminal has this name.
    pub(crate) fn has(&self, name: &[u8]) -> bool
        ensures { result ≡ list_any (λ (t : TheTerminal). bytes_eq t.name name.now) self.now }
    {
        self.names.has(name)
    }

    /// A copy of the terminals.
    pub(crate) fn copy(&self) -> Result<Self, AllocError>
        ensures { IfOk result (λ copy. copy ≡ self.now) }
    {
        let list = self.list.clone()?;
        let names = self.names.copy()?;
        Ok(TerminalList { list, names })
    }
}

/// These terminals keep their counts alone.
fn forget_firsts(terminals: &mut Vec<Terminal>)
    ensures { terminals.new.items ≡ map without_first terminals.old.items }
{
    for terminal in terminals.iter_mut() {
        terminal.first = 0;
    }
}

/// These terminals have these ranges, as far as there are ranges.
fn set_ranges(terminals: &mut Vec<Terminal>, ranges: &[(u32, u32)])
    requires { length ranges.now ≤ length terminals.old.items }
    ensures { terminals.new.items ≡ with_ranges ranges.now terminals.old.items }
{
    for (number, range) in ranges.iter().enumerate() {
        set_range(terminals, number, *range);
    }
}

/// The terminal of this number has this range.
fn set_range(terminals: &mut Vec<Terminal>, number: usize, range: (u32, u32))
    requires { number < length terminals.old.items }
    ensures { (t : TheTerminal) → slice_get terminals.old.items number ≡ Some t →
        terminals.new.items ≡ slice_set terminals.old.items number (record t { first = range.0; count = range.1 }) }
{
    let terminal = &mut terminals[number];
    terminal.first = range.0;
    terminal.count = range.1;
}
