//! Where own headers begin, whether or not all random headers come to portals.
ghost use Rattle.std.specs.Prelude.{OnOk, ◌≡◌};
ghost use Rattle.c104_check.specs.{Starts.{has_portal, with_portal}, Walks.is_port};

use crate::ports::SwitchPort;
use crate::routes::Routes;
use crate::starts::Start;
use c104_token::NoMemory;
use std::alloc::Global;

impl<'a> Routes<'a> {
    ghost use Rattle.std.specs.{List.AllByRecursion, Prelude.{IfOk, OnOk, length, true, ◌+◌, ◌<◌, ◌≡◌}};
    ghost use Rattle.c104_check.specs.{Breaks.AreBreaks, Parts.{AreJust, IsReachedFrom}, Routes.{IsEntryOf, IsRandomAt, IsRandomized}};
    ghost use Rattle.c104_check.specs.{Routes.header_count, Starts.{AreKept, AreOwnStarts, HaveDiscarding, HavePortals}, Trails.IsInput};
    ghost use Rattle.c104_check.specs.Trails.{IsNetwork, routes_in};

    /// Where own headers begin, by terminal: at its input, or where random headers are put before packets there at
    /// the portals behind it, by random header and the nearest first. A portal that is one of a terminal before isn't
    /// there again.
    pub(crate) fn own_starts(&self, alloc: Global) -> Result<Vec<Start>, NoMemory>
        requires { IsNetwork (routes_in self.now) }
        ensures { IfOk result (λ starts. AreOwnStarts (routes_in self.now) starts.items
            (length (routes_in self.now).ranges)) }
    {
        let breaks = self.breaks(alloc)?;
        self.own_starts_by(alloc, breaks.as_slice())
    }

    /// The same with the headers that are tried.
    fn own_starts_by(&self, alloc: Global, breaks: &[bool]) -> Result<Vec<Start>, NoMemory>
        requires network { IsNetwork (routes_in self.now) }
        requires breaks { AreBreaks (routes_in self.now) breaks.now }
        ensures { IfOk result (λ starts. AreOwnStarts (routes_in self.now) starts.items
            (length (routes_in self.now).ranges)) }
    {
        let mut starts = Vec::new(alloc);
        for terminal in 0..self.ranges().len() {
            self.add_own_starts(alloc, breaks, terminal, &mut starts)?;
        }
        Ok(starts)
    }

    /// Those of a terminal join those of the ones before it.
    fn add_own_starts(
        &self,
        alloc: Global,
        breaks: &[bool],
        terminal: usize,
        starts: &mut Vec<Start>,
    ) -> Result<(), NoMemory>
        requires network { IsNetwork (routes_in self.now) }
        requires breaks { AreBreaks (routes_in self.now) breaks.now }
        requires terminal { terminal < length (routes_in self.now).ranges }
        requires starts { AreOwnStarts (routes_in self.now) starts.old.items terminal }
        ensures { OnOk result (AreOwnStarts (routes_in self.now) starts.new.items (terminal + 1)) }
    {
        let entry = self.entry(terminal);
        if self.settings(entry).randomize() {
            return self.add_found(alloc, breaks, terminal, entry, starts);
        }
        starts.push(Start {
            terminal,
            at: entry,
            behind: false,
        })?;
        Ok(())
    }

    /// The portals behind a terminal's input join.
    fn add_found(
        &self,
        alloc: Global,
        breaks: &[bool],
        terminal: usize,
        entry: SwitchPort,
        starts: &mut Vec<Start>,
    ) -> Result<(), NoMemory>
        requires network { IsNetwork (routes_in self.now) }
        requires breaks { AreBreaks (routes_in self.now) breaks.now }
        requires wired { IsEntryOf (routes_in self.now) terminal entry }
        requires input { IsInput (length (routes_in self.now).settings) entry }
        requires randomized { IsRandomized (routes_in self.now) entry }
        requires starts { AreOwnStarts (routes_in self.now) starts.old.items terminal }
        ensures { OnOk result (AreOwnStarts (routes_in self.now) starts.new.items (terminal + 1)) }
    {
        for header in 0..self.header_count() {
            self.add_found_by(alloc, breaks, terminal, entry, header, starts)?;
        }
        Ok(())
    }

    /// The same by one header, where those by all lower ones joined. One that is no break comes to no others, since
    /// the one before it did not.
    fn add_found_by(
        &self,
        alloc: Global,
        breaks: &[bool],
        terminal: usize,
        entry: SwitchPort,
        header: u32,
        starts: &mut Vec<Start>,
    ) -> Result<(), NoMemory>
        requires network { IsNetwork (routes_in self.now) }
        requires breaks { AreBreaks (routes_in self.now) breaks.now }
        requires wired { IsEntryOf (routes_in self.now) terminal entry }
        requires input { IsInput (length (routes_in self.now).settings) entry }
        requires below { header < header_count (routes_in self.now) }
        requires starts { AreOwnStarts (routes_in self.now) starts.old.items terminal }
        requires before { HavePortals (routes_in self.now) entry starts.old.items header }
        ensures starts { OnOk result (AreOwnStarts (routes_in self.now) starts.new.items terminal) }
        ensures portals { OnOk result (HavePortals (routes_in self.now) entry starts.new.items (header + 1)) }
    {
        if !self.is_random_at(header, entry) {
            return Ok(());
        }
        if !breaks[header as usize] {
            return Ok(());
        }
        let inputs = self.reached_from(alloc, header, entry)?;
        self.add_discarding(terminal, entry, header, inputs.as_slice(), starts)
    }

    /// The inputs at which a random header is discarded join, of these to which it may come from an entry.
    fn add_discarding(
        &self,
        terminal: usize,
        entry: SwitchPort,
        header: u32,
        inputs: &[SwitchPort],
        starts: &mut Vec<Start>,
    ) -> Result<(), NoMemory>
        requires network { IsNetwork (routes_in self.now) }
        requires wired { IsEntryOf (routes_in self.now) terminal entry }
        requires random { IsRandomAt (routes_in self.now) entry header }
        requires reached { AreJust (IsReachedFrom (routes_in self.now) header (λ x. entry ≡ x)) inputs.now }
        requires inside { AllByRecursion (IsInput (length (routes_in self.now).settings)) inputs.now }
        requires starts { AreOwnStarts (routes_in self.now) starts.old.items terminal }
        requires before { HavePortals (routes_in self.now) entry starts.old.items header }
        ensures starts { OnOk result (AreOwnStarts (routes_in self.now) starts.new.items terminal) }
        ensures portals { OnOk result (HavePortals (routes_in self.now) entry starts.new.items (header + 1)) }
    {
        for at in inputs {
            self.add_if_discarding(terminal, entry, header, *at, starts)?;
        }
        Ok(())
    }

    /// The same of one input.
    fn add_if_discarding(
        &self,
        terminal: usize,
        entry: SwitchPort,
        header: u32,
        at: SwitchPort,
        starts: &mut Vec<Start>,
    ) -> Result<(), NoMemory>
        requires network { IsNetwork (routes_in self.now) }
        requires wired { IsEntryOf (routes_in self.now) terminal entry }
        requires random { IsRandomAt (routes_in self.now) entry header }
        requires reached { IsReachedFrom (routes_in self.now) header (λ x. entry ≡ x) at }
        requires input { IsInput (length (routes_in self.now).settings) at }
        requires starts { AreOwnStarts (routes_in self.now) starts.old.items terminal }
        ensures starts { OnOk result (AreOwnStarts (routes_in self.now) starts.new.items terminal) }
        ensures kept { OnOk result (AreKept starts.old.items starts.new.items) }
        ensures have { OnOk result (HaveDiscarding (routes_in self.now) header starts.new.items at) }
    {
        if !self.discards(header, at) {
            return Ok(());
        }
        add_portal(terminal, at, starts)
    }
}

/// A portal joins the starts, behind a terminal's input, unless it is among them.
fn add_portal(terminal: usize, at: SwitchPort, starts: &mut Vec<Start>) -> Result<(), NoMemory>
    ensures { OnOk result (starts.new.items ≡ with_portal starts.old.items terminal at) }
{
    if !has_portal(starts, at) {
        starts.push(Start {
            terminal,
            at,
            behind: true,
        })?;
    }
    Ok(())
}

/// Whether a portal is among these starts.
fn has_portal(starts: &[Start], at: SwitchPort) -> bool
    ensures { result ≡ has_portal at starts.now }
{
    starts.iter().any(|start| start.behind && is_at(*start, at))
}

/// Whether headers begin at this input by a start.
fn is_at(start: Start, at: SwitchPort) -> bool
    ensures { result ≡ is_port at start.at }
{
    at.switch == start.at.switch && at.link == start.at.link
}
