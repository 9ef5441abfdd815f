//! Where the headers that packets bring begin their walks.

use crate::faults::Shown;
use crate::headers::Refusal;
use crate::met::add_input;
use crate::ports::SwitchPort;
use crate::routes::Routes;
use crate::walks::{Goal, Halt, Mark};
use c104_interval::Select;
use c104_plan::Port;
use c104_regs::LINKS;
use c104_token::{Items, NoMemory};
use std::alloc::Global;

/// Where headers begin their walks: at a terminal's input, or behind one where random headers are put before
/// packets, at a portal of theirs.
#[derive(Clone, Copy, Debug)]
pub(crate) struct Start {
    /// The terminal that sends them.
    pub(crate) terminal: usize,
    /// The input.
    pub(crate) at: SwitchPort,
    /// It is a portal.
    pub(crate) behind: bool,
}

impl<'a> Routes<'a> {
    ghost use Rattle.std.specs.Prelude.{IfOk, IsTrue, MatchOption, None, OnOk, Some, [], length, ℕ, ◌*◌, ◌+◌, ◌<◌, ◌↔◌, ◌≡◌};
    ghost use Rattle.c104_check.specs.{Breaks.AreBreaks, Checks.IsFirstRefused, Portals.{met_below, met_from, met_here, portals_met}};
    ghost use Rattle.c104_check.specs.Routes.{Homes, IsEntryOf, IsRandomized, TerminalLands, header_count, most_hops, select, to_port};
    ghost use Rattle.c104_check.specs.Starts.{AllHome, AreKnown, AreStarts, AreWalked, CoverPortals, CoverTerminals, HaveJoined, HomeBelow};
    ghost use Rattle.c104_check.specs.{Starts.{IsFirstRandom, IsFirstRandomAt, IsRefusedRandom, LeadsToInput, add_all}, Trails.IsInput};
    ghost use Rattle.c104_check.specs.{Trails.{IsNetwork, routes_in}, Walking.{AreGood, TellMet}, declared.walks.Goal.TheVariants.Portal};
    ghost use Rattle.c104_interval.specs.declared.intervals.Select.TheVariants.{Discard};
    ghost use Rattle.c104_regs.specs.declared.registers.TheConstants.{LINKS as THE_LINKS};

    /// The first header that is refused: by terminal, and of one where random headers are put before packets
    /// first such a one, and then by portal, in the order in which they are met; and then by header.
    pub(crate) fn first_refused(&self, alloc: Global) -> Result<Option<Refusal>, NoMemory>
        requires { IsNetwork (routes_in self.now) }
        ensures { IfOk result (λ found. MatchOption found ((t : ℕ) → TerminalLands (routes_in self.now) t)
            (λ refusal. IsFirstRefused (routes_in self.now) refusal.why refusal.shown)) }
    {
        let breaks = self.breaks(alloc)?;
        let mut starts = Vec::new(alloc);
        let random = self.add_starts(alloc, breaks.as_slice(), &mut starts)?;
        match self.first_at(alloc, breaks.as_slice(), starts.as_slice())? {
            Some(refusal) => Ok(Some(refusal)),
            None => Ok(random),
        }
    }

    /// The starts of all terminals join none, up to the first terminal that has a random header which is refused;
    /// that one is answered.
    fn add_starts(
        &self,
        alloc: Global,
        breaks: &[bool],
        starts: &mut Vec<Start>,
    ) -> Result<Option<Refusal>, NoMemory>
        requires network { IsNetwork (routes_in self.now) }
        requires breaks { AreBreaks (routes_in self.now) breaks.now }
        requires empty { starts.old.items ≡ [] }
        ensures starts { IfOk result (λ _. AreStarts (routes_in self.now) starts.new.items) }
        ensures covers { IfOk result (λ found. MatchOption found
            (CoverTerminals (routes_in self.now) starts.new.items (length (routes_in self.now).ranges))
            (IsFirstRandom (routes_in self.now) starts.new.items)) }
    {
        let mut portals = Vec::new(alloc);
        for terminal in 0..self.ranges().len() {
            let refusal = self.add_terminal(alloc, breaks, terminal, &mut portals, starts)?;
            if refusal.is_some() {
                return Ok(refusal);
            }
        }
        Ok(None)
    }

    /// The starts of a terminal join those of the ones before it, whose portals are known.
    fn add_terminal(
        &self,
        alloc: Global,
        breaks: &[bool],
        terminal: usize,
        portals: &mut Vec<SwitchPort>,
        starts: &mut Vec<Start>,
    ) -> Result<Option<Refusal>, NoMemory>
        requires network { IsNetwork (routes_in self.now) }
        requires breaks { AreBreaks (routes_in self.now) breaks.now }
        requires terminal { terminal < length (routes_in self.now).ranges }
        requires starts { AreStarts (routes_in self.now) starts.old.items }
        requires covers { CoverTerminals (routes_in self.now) starts.old.items terminal }
        requires portals { CoverPortals (routes_in self.now) starts.old.items portals.old.items }
        ensures starts { IfOk result (λ _. AreStarts (routes_in self.now) starts.new.items) }
        ensures covers { IfOk result (λ found. MatchOption found
            (CoverTerminals (routes_in self.now) starts.new.items (terminal + 1))
            (IsFirstRandom (routes_in self.now) starts.new.items)) }
        ensures portals { IfOk result (λ found. found ≡ None
            → CoverPortals (routes_in self.now) starts.new.items portals.new.items) }
    {
        let entry = self.entry(terminal);
        if !self.settings(entry).randomize() {
            starts.push(Start {
                terminal,
                at: entry,
                behind: false,
            })?;
            return Ok(None);
        }
        let known = portals.len();
        let refusal = self.home(alloc, breaks, terminal, entry, portals)?;
        if refusal.is_some() {
            return Ok(refusal);
        }
        self.add_behind(terminal, entry, known, portals.as_slice(), starts)?;
        Ok(None)
    }

    /// The portals from a number on are the next starts, behind a terminal's input.
    fn add_behind(
        &self,
        terminal: usize,
        entry: SwitchPort,
        known: usize,
        portals: &[SwitchPort],
        starts: &mut Vec<Start>,
    ) -> Result<(), NoMemory>
        requires network { IsNetwork (routes_in self.now) }
        requires wired { IsEntryOf (routes_in self.now) terminal entry }
        requires randomized { IsRandomized (routes_in self.now) entry }
        requires homes { AllHome (routes_in self.now) entry }
        requires portals { HaveJoined (routes_in self.now) entry starts.old.items known portals.now }
        requires starts { AreStarts (routes_in self.now) starts.old.items }
        requires covers { CoverTerminals (routes_in self.now) starts.old.items terminal }
        ensures starts { OnOk result (AreStarts (routes_in self.now) starts.new.items) }
        ensures covers { OnOk result (CoverTerminals (routes_in self.now) starts.new.items (terminal + 1)) }
        ensures portals { OnOk result (CoverPortals (routes_in self.now) starts.new.items portals.now) }
    {
        for number in known..portals.len() {
            let at = portals[number];
            starts.push(Start {
                terminal,
                at,
                behind: true,
            })?;
        }
        Ok(())
    }

    /// The portals that the random headers of a terminal's input meet join others. If one of the headers does
    /// not come to a portal, the first such is answered.
    fn home(
        &self,
        alloc: Global,
        breaks: &[bool],
        terminal: usize,
        entry: SwitchPort,
        portals: &mut Vec<SwitchPort>,
    ) -> Result<Option<Refusal>, NoMemory>
        requires network { IsNetwork (routes_in self.now) }
        requires breaks { AreBreaks (routes_in self.now) breaks.now }
        requires wired { IsEntryOf (routes_in self.now) terminal entry }
        requires input { IsInput (length (routes_in self.now).settings) entry }
        ensures refused { IfOk result (λ found. MatchOption found (AllHome (routes_in self.now) entry)
            (IsFirstRandomAt (routes_in self.now) terminal entry)) }
        ensures met { IfOk result (λ found. found ≡ None
            → portals.new.items ≡ add_all portals.old.items (portals_met (routes_in self.now) entry)) }
    {
        for header in 0..self.header_count() {
            let refusal = self.home_anew(alloc, breaks, terminal, entry, header, portals)?;
            if refusal.is_some() {
                return Ok(refusal);
            }
        }
        Ok(None)
    }

    /// The same of one header, where all lower ones come to portals, which joined. One that is no break then
    /// does, and meets no others, since the one before it did.
    fn home_anew(
        &self,
        alloc: Global,
        breaks: &[bool],
        terminal: usize,
        entry: SwitchPort,
        header: u32,
        portals: &mut Vec<SwitchPort>,
    ) -> Result<Option<Refusal>, NoMemory>
        requires network { IsNetwork (routes_in self.now) }
        requires breaks { AreBreaks (routes_in self.now) breaks.now }
        requires wired { IsEntryOf (routes_in self.now) terminal entry }
        requires input { IsInput (length (routes_in self.now).settings) entry }
        requires below { header < header_count (routes_in self.now) }
        requires before { HomeBelow (routes_in self.now) entry header }
        requires known { AreKnown portals.old.items (met_below (routes_in self.now) entry header) }
        ensures refused { IfOk result (λ found. MatchOption found (HomeBelow (routes_in self.now) entry (header + 1))
            (IsFirstRandomAt (routes_in self.now) terminal entry)) }
        ensures met { IfOk result (λ found. found ≡ None
            → portals.new.items ≡ add_all portals.old.items (met_here (routes_in self.now) entry header)) }
    {
        if !self.is_random_at(header, entry) {
            return Ok(None);
        }
        if !breaks[header as usize] {
            return Ok(None);
        }
        self.home_by(alloc, terminal, entry, header, portals)
    }

    /// The same of one random header.
    fn home_by(
        &self,
        alloc: Global,
        terminal: usize,
        entry: SwitchPort,
        header: u32,
        portals: &mut Vec<SwitchPort>,
    ) -> Result<Option<Refusal>, NoMemory>
        requires network { IsNetwork (routes_in self.now) }
        requires input { IsInput (length (routes_in self.now).settings) entry }
        ensures refused { IfOk result (λ found. MatchOption found
            (Homes (routes_in self.now) header (most_hops (routes_in self.now)) entry.switch entry.link)
            (IsRefusedRandom (routes_in self.now) terminal entry header)) }
        ensures met { IfOk result (λ found. found ≡ None
            → portals.new.items ≡ add_all portals.old.items
            (met_from (routes_in self.now) header (most_hops (routes_in self.now)) entry)) }
    {
        let refusal = self.homeless_at(alloc, terminal, entry, header)?;
        if refusal.is_some() {
            return Ok(refusal);
        }
        self.add_met(alloc, header, entry, portals)?;
        Ok(None)
    }

    /// Why a random header doesn't come from an entry to a portal.
    pub(crate) fn homeless_at(
        &self,
        alloc: Global,
        terminal: usize,
        entry: SwitchPort,
        header: u32,
    ) -> Result<Option<Refusal>, NoMemory>
        requires network { IsNetwork (routes_in self.now) }
        requires input { IsInput (length (routes_in self.now).settings) entry }
        ensures { IfOk result (λ found. MatchOption found
            (Homes (routes_in self.now) header (most_hops (routes_in self.now)) entry.switch entry.link)
            (IsRefusedRandom (routes_in self.now) terminal entry header)) }
    {
        let mut marks = vec![in alloc; Mark::New; self.switch_count() * LINKS]?;
        self.homeless(alloc, terminal, entry, header, &mut marks)
    }

    /// The same with marks of the inputs, none of which was met.
    fn homeless(
        &self,
        alloc: Global,
        terminal: usize,
        entry: SwitchPort,
        header: u32,
        marks: &mut [Mark],
    ) -> Result<Option<Refusal>, NoMemory>
        requires network { IsNetwork (routes_in self.now) }
        requires input { IsInput (length (routes_in self.now).settings) entry }
        requires room { length marks.old ≡ length (routes_in self.now).settings * THE_LINKS }
        requires good { AreGood (routes_in self.now) header Portal marks.old }
        requires met { TellMet (routes_in self.now) marks.old [] }
        ensures { IfOk result (λ found. MatchOption found
            (Homes (routes_in self.now) header (most_hops (routes_in self.now)) entry.switch entry.link)
            (IsRefusedRandom (routes_in self.now) terminal entry header)) }
    {
        let mut walk = Vec::new(alloc);
        match self.walk_on(header, Goal::Portal, entry, &mut walk, marks) {
            Ok(()) => Ok(None),
            Err(Halt::NoMemory) => Err(NoMemory),
            Err(Halt::Fault(why)) => {
                let walk = Items::new(walk);
                Ok(Some(Refusal {
                    start: 0,
                    why,
                    shown: Shown {
                        entry: terminal,
                        header,
                        walk,
                    },
                }))
            }
        }
    }

    /// The portals that a random header meets from an input join others, in the order in which it meets them.
    fn add_met(
        &self,
        alloc: Global,
        header: u32,
        at: SwitchPort,
        portals: &mut Vec<SwitchPort>,
    ) -> Result<(), NoMemory>
        requires network { IsNetwork (routes_in self.now) }
        requires input { IsInput (length (routes_in self.now).settings) at }
        requires homes { Homes (routes_in self.now) header (most_hops (routes_in self.now)) at.switch at.link }
        ensures { OnOk result (portals.new.items ≡ add_all portals.old.items
            (met_from (routes_in self.now) header (most_hops (routes_in self.now)) at)) }
    {
        let inputs = self.switch_count() * LINKS;
        let mut walked = vec![in alloc; false; inputs]?;
        self.add_portals(header, at, inputs, &mut walked, portals)
    }

    /// The same where it comes to portals over at most this many switches. What it meets from an input that was
    /// walked from has joined already.
    fn add_portals(
        &self,
        header: u32,
        at: SwitchPort,
        hops: usize,
        walked: &mut [bool],
        portals: &mut Vec<SwitchPort>,
    ) -> Result<(), NoMemory>
        requires network { IsNetwork (routes_in self.now) }
        requires input { IsInput (length (routes_in self.now).settings) at }
        requires homes { Homes (routes_in self.now) header hops at.switch at.link }
        requires room { length walked.old ≡ length (routes_in self.now).settings * THE_LINKS }
        requires walked { AreWalked (routes_in self.now) header walked.old portals.old.items }
        ensures met { OnOk result (portals.new.items ≡ add_all portals.old.items
            (met_from (routes_in self.now) header hops at)) }
        ensures walked { OnOk result (AreWalked (routes_in self.now) header walked.new portals.new.items) }
    {
        if walked[at.place()] {
            return Ok(());
        }
        if self.discards(header, at) {
            return add_input(portals, at);
        }
        let group = match self.selected(header, at) {
            None => unreachable!(),
            Some(group) => group,
        };
        for link in group.first..group.last + 1 {
            let switch = at.switch;
            let next = self.input_at(SwitchPort { switch, link });
            self.add_portals(header, next, hops - 1, walked, portals)?;
        }
        walked[at.place()] = true;
        Ok(())
    }

    /// Whether a header is discarded at an input.
    pub(crate) fn discards(&self, header: u32, at: SwitchPort) -> bool
        requires { IsInput (length (routes_in self.now).settings) at }
        ensures { IsTrue result ↔ (select (routes_in self.now) at.switch at.link header ≡ Some Discard) }
    {
        match self.select(header, at) {
            Select::Discard => true,
            Select::Link(_) => false,
            Select::Sink => false,
        }
    }

    /// The input that a link is wired to.
    fn input_at(&self, link: SwitchPort) -> SwitchPort
        requires input { IsInput (length (routes_in self.now).settings) link }
        requires wired { LeadsToInput ((routes_in self.now).peer (to_port link)) }
        ensures { (routes_in self.now).peer (to_port link) ≡ Some (to_port result) }
    {
        match self.peer(link) {
            Some(Port::Switch(switch, link)) => SwitchPort { switch, link },
            _ => unreachable!(),
        }
    }
}
