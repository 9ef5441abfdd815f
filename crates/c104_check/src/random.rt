//! Random headers.
//!
//! A random header that a terminal owns walks twice: as a random one at an entry, and as an owned one from portals. One
//! that nobody owns may do what it likes from a portal, and must be sunk at an entry without random headers. Portals come
//! after all random headers of their entry, each once, in the order in which they are first met; one that an entry before
//! has met is walked from there alone.
ghost use Rattle.std.specs.Prelude.{◌<◌, ◌≡◌};
ghost use Rattle.c104_check.specs.{Portals.is_random, Routes.random_count};

use crate::ports::SwitchPort;
use crate::routes::Routes;
use c104_regs::PackedSettings;

impl<'a> Routes<'a> {
    ghost use Rattle.std.specs.Prelude.{IsTrue, length, ◌<◌, ◌↔◌, ◌≡◌};
    ghost use Rattle.c104_check.specs.{Portals.is_random_at, Routes.{IsRandomIn, header_count}, Trails.{IsInput, routes_in}};

    /// Whether a header is a random one of the network: at some terminal's input.
    pub(crate) fn is_random(&self, header: u32) -> bool
        ensures { IsTrue result ↔ IsRandomIn (routes_in self.now) header }
    {
        if header >= self.header_count() {
            return false;
        }
        for terminal in 0..self.ranges().len() {
            if self.is_random_at(header, self.entry(terminal)) {
                return true;
            }
        }
        false
    }

    /// Whether a header is a random one at an input.
    pub(crate) fn is_random_at(&self, header: u32, at: SwitchPort) -> bool
        requires input { IsInput (length (routes_in self.now).settings) at }
        requires below { header < header_count (routes_in self.now) }
        ensures { result ≡ is_random_at (routes_in self.now) at header }
    {
        is_random(self.header_count(), self.settings(at), header)
    }
}

/// Whether a header is a random one by what is set at a link, where there are this many headers: how far it is
/// above the base, counted round, is below how many there are.
fn is_random(count: u32, settings: &PackedSettings, header: u32) -> bool
    requires some { 0 < count }
    requires few { count < 65537 }
    requires below { header < count }
    ensures { result ≡ is_random count settings.now header }
{
    let first = settings.random_base() % count;
    settings.randomize() && (header + count - first) % count < random_count(settings)
}

/// How many random headers a link may put before packets.
pub(crate) fn random_count(settings: &PackedSettings) -> u32
    ensures { result ≡ random_count settings.now }
{
    if settings.random_range() > 0 {
        settings.random_range()
    } else {
        1
    }
}
