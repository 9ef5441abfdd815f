//! The tests of links.
ghost use Rattle.std.specs.Prelude.{IfOk, MatchOption, ◌≡◌};
ghost use Rattle.c104_check.specs.{ChannelDependencies.IsNeverRandomized, Checks.IsFirstLink, Routes.{IsRandomized, routes_of}};
ghost use Rattle.c104_plan.specs.PlanImage.{Fits};

use crate::ports::SwitchPort;
use crate::routes::Routes;
use c104_plan::{Image, Plan, Port};
use c104_regs::LINKS;
use c104_token::NoMemory;
use std::alloc::Global;

/// The first link where random headers are put before packets, by switch and then by link, in the network of an image
/// for a plan, which it fits. None where none are put. It fails only when out of memory.
pub fn first_randomized(
    alloc: Global,
    plan: &Plan,
    image: &Image,
) -> Result<Option<SwitchPort>, NoMemory>
    requires { Fits image.now plan.now }
    ensures { IfOk result (λ found. MatchOption found (IsNeverRandomized (routes_of plan.now image.now))
        (IsFirstLink (IsRandomized (routes_of plan.now image.now)))) }
{
    let routes = Routes::new(alloc, plan, image)?;
    Ok(routes.first_randomized())
}

/// How many bytes the headers have in the network of an image for a plan, which it fits: as many as at the first link that
/// is wired, by switch and then by link; and 1 where none is. It fails only when out of memory.
pub fn header_length(alloc: Global, plan: &Plan, image: &Image) -> Result<usize, NoMemory>
    requires { Fits image.now plan.now }
    ensures { IfOk result (λ bytes. bytes ≡ (routes_of plan.now image.now).header) }
{
    let routes = Routes::new(alloc, plan, image)?;
    Ok(routes.header_bytes())
}

impl<'a> Routes<'a> {
    ghost use Rattle.std.specs.Prelude.{IsTrue, MatchOption, false, length, ◌↔◌, ◌≡◌};
    ghost use Rattle.c104_check.specs.{ChannelDependencies.IsNeverRandomized, Checks.{DeletesInside, IsFirstLink, IsMixed, IsNoLink}};
    ghost use Rattle.c104_check.specs.{Checks.IsRandomInside, Routes.IsRandomized, Trails.{IsInput, routes_in}};

    /// The first link that is wired and whose headers aren't as long as those of the first that is.
    pub(crate) fn first_mixed(&self) -> Option<SwitchPort>
        ensures { MatchOption result (IsNoLink (IsMixed (routes_in self.now)))
            (IsFirstLink (IsMixed (routes_in self.now))) }
    {
        for place in 0..self.switch_count() * LINKS {
            let at = SwitchPort::at(place);
            if self.is_mixed(at) {
                return Some(at);
            }
        }
        None
    }

    /// The first link that is wired to a switch and deletes headers.
    pub(crate) fn first_deleting(&self) -> Option<SwitchPort>
        ensures { MatchOption result (IsNoLink (DeletesInside (routes_in self.now)))
            (IsFirstLink (DeletesInside (routes_in self.now))) }
    {
        for place in 0..self.switch_count() * LINKS {
            let at = SwitchPort::at(place);
            if self.deletes_inside(at) {
                return Some(at);
            }
        }
        None
    }

    /// The first link where random headers are put before packets and which isn't a terminal's.
    pub(crate) fn first_random(&self) -> Option<SwitchPort>
        ensures { MatchOption result (IsNoLink (IsRandomInside (routes_in self.now)))
            (IsFirstLink (IsRandomInside (routes_in self.now))) }
    {
        for place in 0..self.switch_count() * LINKS {
            let at = SwitchPort::at(place);
            if self.is_random_inside(at) {
                return Some(at);
            }
        }
        None
    }

    /// The first link where random headers are put before packets.
    fn first_randomized(&self) -> Option<SwitchPort>
        ensures { MatchOption result (IsNeverRandomized (routes_in self.now))
            (IsFirstLink (IsRandomized (routes_in self.now))) }
    {
        for place in 0..self.switch_count() * LINKS {
            let at = SwitchPort::at(place);
            if self.is_randomized(at) {
                return Some(at);
            }
        }
        None
    }

    /// Whether random headers are put before packets at any link.
    pub(crate) fn is_ever_randomized(&self) -> bool
        ensures { result ≡ false → IsNeverRandomized (routes_in self.now) }
    {
        self.first_randomized().is_some()
    }

    /// Whether random headers are put before packets at a link.
    fn is_randomized(&self, at: SwitchPort) -> bool
        requires { IsInput (length (routes_in self.now).settings) at }
        ensures { IsTrue result ↔ IsRandomized (routes_in self.now) at }
    {
        self.settings(at).randomize()
    }

    /// Whether random headers are put before packets at a link which isn't a terminal's.
    fn is_random_inside(&self, at: SwitchPort) -> bool
        requires { IsInput (length (routes_in self.now).settings) at }
        ensures { IsTrue result ↔ IsRandomInside (routes_in self.now) at }
    {
        match self.peer(at) {
            Some(Port::Terminal(_)) => false,
            _ => self.settings(at).randomize(),
        }
    }

    /// Whether a link is wired and its headers aren't as long as those of the first that is.
    fn is_mixed(&self, at: SwitchPort) -> bool
        requires { IsInput (length (routes_in self.now).settings) at }
        ensures { IsTrue result ↔ IsMixed (routes_in self.now) at }
    {
        self.peer(at).is_some() && self.settings(at).header_length() != self.header_bytes()
    }

    /// Whether a link is wired to a switch and deletes headers.
    fn deletes_inside(&self, at: SwitchPort) -> bool
        requires { IsInput (length (routes_in self.now).settings) at }
        ensures { IsTrue result ↔ DeletesInside (routes_in self.now) at }
    {
        match self.peer(at) {
            Some(Port::Switch(_, _)) => self.settings(at).delete_header(),
            _ => false,
        }
    }
}
