//! The first header that is refused.
ghost use Rattle.std.specs.Prelude.{◌≡◌};
ghost use Rattle.c104_check.specs.Checks.{fault_of};

use crate::faults::{CheckFault, Shown, WalkFault};
use crate::ports::SwitchPort;
use crate::routes::Routes;
use crate::starts::Start;
use crate::walks::{Goal, Halt, Mark};
use c104_interval::Select;
use c104_regs::LINKS;
use c104_token::{Items, NoMemory};
use std::alloc::Global;

/// A header that is refused, and why.
#[derive(Debug, Drop)]
pub(crate) struct Refusal {
    /// The number of the start where it is, and 0 of a random header.
    pub(crate) start: usize,
    pub(crate) why: WalkFault,
    pub(crate) shown: Shown,
}

impl Refusal {
    /// The fault that is answered.
    pub(crate) fn into_fault(self) -> CheckFault
        ensures { result ≡ fault_of self.why self.shown }
    {
        let Refusal { why, shown, .. } = self;
        match why {
            WalkFault::WrongEnd => CheckFault::WrongEnd(shown),
            WalkFault::DeadEnd => CheckFault::DeadEnd(shown),
            WalkFault::Loop => CheckFault::Loop(shown),
            WalkFault::Stray => CheckFault::Stray(shown),
        }
    }
}

impl<'a> Routes<'a> {
    ghost use Rattle.std.specs.Prelude.{IfOk, IsTrue, MatchOption, None, Some, [], false, length, true, ⊤, ◌*◌, ◌<◌, ◌↔◌, ◌∷◌, ◌≡◌, ◌≤◌};
    ghost use Rattle.c104_check.specs.{Breaks.AreBreaks, Refusals.{AllLand, AreInputs, IsFirstIn, IsFirstOf, IsRefusal, LandSoFar}};
    ghost use Rattle.c104_check.specs.{Refusals.{LandsBefore, LandsFrom}, Routes.IsRandomIn, Trails.{IsInput, IsNetwork, routes_in}};
    ghost use Rattle.c104_check.specs.{Walking.{AreGood, TellMet}, Walks.fault_at, declared.walks.Goal.TheVariants.Owner};
    ghost use Rattle.c104_regs.specs.declared.registers.TheConstants.{LINKS as THE_LINKS};
    ghost use Rattle.c104_check.specs.Routes as routes;
    ghost use Rattle.c104_check.specs.declared.faults.WalkFault.TheVariants as walk;

    /// The first header that is refused, by start and then by header.
    ///
    /// Each header is tried at all starts before the next, since what is known to be good is good for
    /// one header alone. Once a start has a refused header, only those before it can have an earlier one.
    pub(crate) fn first_at(
        &self,
        alloc: Global,
        breaks: &[bool],
        starts: &[Start],
    ) -> Result<Option<Refusal>, NoMemory>
        requires network { IsNetwork (routes_in self.now) }
        requires breaks { AreBreaks (routes_in self.now) breaks.now }
        requires starts { AreInputs (routes_in self.now) starts.now }
        ensures { IfOk result (λ found. MatchOption found (AllLand (routes_in self.now) starts.now)
            (IsFirstIn (routes_in self.now) starts.now)) }
    {
        let mut first = None;
        let mut count = starts.len();
        for header in 0..self.header_count() {
            if let Some(refusal) = self.refused_anew(alloc, breaks, starts, header, count)? {
                count = refusal.start;
                first = Some(refusal);
            }
        }
        Ok(first)
    }

    /// The first of this many starts at which a header is refused, where all lower ones come where they
    /// should. One that is no break then does, since the one before it did.
    fn refused_anew(
        &self,
        alloc: Global,
        breaks: &[bool],
        starts: &[Start],
        header: u32,
        count: usize,
    ) -> Result<Option<Refusal>, NoMemory>
        requires count { count ≤ length starts.now }
        requires below { header < routes.header_count (routes_in self.now) }
        requires network { IsNetwork (routes_in self.now) }
        requires breaks { AreBreaks (routes_in self.now) breaks.now }
        requires starts { AreInputs (routes_in self.now) starts.now }
        requires before { LandSoFar (routes_in self.now) starts.now header count }
        ensures { IfOk result (λ found. MatchOption found (LandsBefore (routes_in self.now) starts.now header count)
            (IsFirstOf (routes_in self.now) starts.now header count)) }
    {
        if !breaks[header as usize] {
            return Ok(None);
        }
        self.refused_before(alloc, starts, header, count)
    }

    /// The first of this many starts at which a header is refused.
    pub(crate) fn refused_before(
        &self,
        alloc: Global,
        starts: &[Start],
        header: u32,
        count: usize,
    ) -> Result<Option<Refusal>, NoMemory>
        requires count { count ≤ length starts.now }
        requires network { IsNetwork (routes_in self.now) }
        requires starts { AreInputs (routes_in self.now) starts.now }
        ensures { IfOk result (λ found. MatchOption found (LandsBefore (routes_in self.now) starts.now header count)
            (IsFirstOf (routes_in self.now) starts.now header count)) }
    {
        match self.owner(header) {
            Some(owner) => self.misled_before(alloc, starts, header, owner, count),
            None => self.stray_before(alloc, starts, header, count),
        }
    }

    /// The same of a header with an owner.
    fn misled_before(
        &self,
        alloc: Global,
        starts: &[Start],
        header: u32,
        owner: usize,
        count: usize,
    ) -> Result<Option<Refusal>, NoMemory>
        requires count { count ≤ length starts.now }
        requires network { IsNetwork (routes_in self.now) }
        requires starts { AreInputs (routes_in self.now) starts.now }
        requires owned { routes.owner (routes_in self.now) header ≡ Some owner }
        ensures { IfOk result (λ found. MatchOption found (LandsBefore (routes_in self.now) starts.now header count)
            (IsFirstOf (routes_in self.now) starts.now header count)) }
    {
        let mut marks = vec![in alloc; Mark::New; self.switch_count() * LINKS]?;
        self.first_misled(alloc, starts, header, owner, count, &mut marks)
    }

    /// The same with marks of the inputs that were met before. The function above owns them, so that none of the
    /// returns from this loop has to drop them.
    fn first_misled(
        &self,
        alloc: Global,
        starts: &[Start],
        header: u32,
        owner: usize,
        count: usize,
        marks: &mut [Mark],
    ) -> Result<Option<Refusal>, NoMemory>
        requires count { count ≤ length starts.now }
        requires network { IsNetwork (routes_in self.now) }
        requires starts { AreInputs (routes_in self.now) starts.now }
        requires owned { routes.owner (routes_in self.now) header ≡ Some owner }
        requires good { AreGood (routes_in self.now) header (Owner owner) marks.old }
        requires met { TellMet (routes_in self.now) marks.old [] }
        requires room { length marks.old ≡ length (routes_in self.now).settings * THE_LINKS }
        ensures { IfOk result (λ found. MatchOption found (LandsBefore (routes_in self.now) starts.now header count)
            (IsFirstOf (routes_in self.now) starts.now header count)) }
    {
        for number in 0..count {
            let refusal = self.misled(alloc, starts, header, number, owner, marks)?;
            if refusal.is_some() {
                return Ok(refusal);
            }
        }
        Ok(None)
    }

    /// The same of a header without an owner.
    fn stray_before(
        &self,
        alloc: Global,
        starts: &[Start],
        header: u32,
        count: usize,
    ) -> Result<Option<Refusal>, NoMemory>
        requires count { count ≤ length starts.now }
        requires network { IsNetwork (routes_in self.now) }
        requires starts { AreInputs (routes_in self.now) starts.now }
        requires owned { routes.owner (routes_in self.now) header ≡ None }
        ensures { IfOk result (λ found. MatchOption found (LandsBefore (routes_in self.now) starts.now header count)
            (IsFirstOf (routes_in self.now) starts.now header count)) }
    {
        let random = self.is_random(header);
        for number in 0..count {
            let refusal = self.stray(alloc, starts, header, number, random)?;
            if refusal.is_some() {
                return Ok(refusal);
            }
        }
        Ok(None)
    }

    /// Why a header doesn't lead from a start to its owner.
    fn misled(
        &self,
        alloc: Global,
        starts: &[Start],
        header: u32,
        number: usize,
        owner: usize,
        marks: &mut [Mark],
    ) -> Result<Option<Refusal>, NoMemory>
        requires number { number < length starts.now }
        requires starts { AreInputs (routes_in self.now) starts.now }
        requires network { IsNetwork (routes_in self.now) }
        requires owned { routes.owner (routes_in self.now) header ≡ Some owner }
        requires room { length marks.old ≡ length (routes_in self.now).settings * THE_LINKS }
        requires good { AreGood (routes_in self.now) header (Owner owner) marks.old }
        requires met { TellMet (routes_in self.now) marks.old [] }
        ensures refusal { IfOk result (λ found. MatchOption found (LandsFrom (routes_in self.now) starts.now header number)
            (IsRefusal (routes_in self.now) starts.now header number)) }
        ensures good { IfOk result (λ found. MatchOption found (AreGood (routes_in self.now) header (Owner owner) marks.new)
            (λ _. ⊤)) }
        ensures met { IfOk result (λ found. MatchOption found (TellMet (routes_in self.now) marks.new [])
            (λ _. ⊤)) }
    {
        let start = starts[number];
        let mut walk = Vec::new(alloc);
        match self.walk_on(header, Goal::Owner(owner), start.at, &mut walk, marks) {
            Ok(()) => Ok(None),
            Err(Halt::NoMemory) => Err(NoMemory),
            Err(Halt::Fault(why)) => {
                let walk = Items::new(walk);
                Ok(Some(Refusal {
                    start: number,
                    why,
                    shown: Shown {
                        entry: start.terminal,
                        header,
                        walk,
                    },
                }))
            }
        }
    }

    /// Whether a header without an owner isn't dropped at a start, where it should be: behind a portal a
    /// random one need not.
    fn stray(
        &self,
        alloc: Global,
        starts: &[Start],
        header: u32,
        number: usize,
        random: bool,
    ) -> Result<Option<Refusal>, NoMemory>
        requires number { number < length starts.now }
        requires network { IsNetwork (routes_in self.now) }
        requires starts { AreInputs (routes_in self.now) starts.now }
        requires owned { routes.owner (routes_in self.now) header ≡ None }
        requires random { IsTrue random ↔ IsRandomIn (routes_in self.now) header }
        ensures { IfOk result (λ found. MatchOption found (LandsFrom (routes_in self.now) starts.now header number)
            (IsRefusal (routes_in self.now) starts.now header number)) }
    {
        let start = starts[number];
        if start.behind && random {
            return Ok(None);
        }
        if self.drops(header, start.at) {
            return Ok(None);
        }
        let mut walk = Vec::new(alloc);
        walk.push(start.at)?;
        let walk = Items::new(walk);
        Ok(Some(Refusal {
            start: number,
            why: WalkFault::Stray,
            shown: Shown {
                entry: start.terminal,
                header,
                walk,
            },
        }))
    }

    /// Whether a header is dropped where it comes in.
    fn drops(&self, header: u32, at: SwitchPort) -> bool
        requires { IsInput (length (routes_in self.now).settings) at }
        ensures dropped { result ≡ true → fault_at (routes_in self.now) header at None ≡ None }
        ensures stray { result ≡ false
            → fault_at (routes_in self.now) header at None ≡ Some (walk.Stray, at ∷ []) }
    {
        match self.select(header, at) {
            Select::Sink => true,
            Select::Discard => false,
            Select::Link(_) => false,
        }
    }
}
