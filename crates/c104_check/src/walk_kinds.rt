//! Which headers refused walks are of. Nothing is proved of it but that it is safe and ends.
//!
//! Where random headers are put before a terminal's packets, its input may be a portal too. A walk from there is a random
//! header's exactly where the header is one and comes to no portal by some choice: what begins at a portal is told only
//! once all random headers come to one.

use crate::faults::Shown;
use crate::ports::SwitchPort;
use crate::routes::Routes;
use crate::walks::Goal;
use c104_token::NoMemory;
use std::alloc::Global;

/// Which header a refused walk is of, and where it begins.
#[derive(Clone, Copy, Debug, PartialEq, Eq)]
pub enum WalkKind {
    /// A header of the terminal's own packets, at its input.
    Own,
    /// A random header that is put before its packets, at this input, which is the terminal's.
    Random(SwitchPort),
    /// A header of the terminal's own packets, behind a random one, at this portal, which discards that.
    Behind(SwitchPort),
}

impl WalkKind {
    /// Where the header should come that has this owner, if it has one. None where it is to be dropped.
    pub(crate) fn goal(self, owner: Option<usize>) -> Option<Goal> {
        match (self, owner) {
            (WalkKind::Random(_), _) => Some(Goal::Portal),
            (_, Some(owner)) => Some(Goal::Owner(owner)),
            (_, None) => None,
        }
    }
}

impl<'a> Routes<'a> {
    ghost use Rattle.std.specs.Prelude.{length};
    ghost use Rattle.c104_check.specs.Trails.{IsInput, routes_in};

    /// Of which kind a walk is.
    pub(crate) fn walk_kind(&self, alloc: Global, shown: &Shown) -> Result<WalkKind, NoMemory> {
        let Some(first) = shown.walk.as_slice().first() else {
            return Ok(WalkKind::Own);
        };
        if shown.entry >= self.ranges().len() {
            return Ok(WalkKind::Own);
        }
        let entry = self.entry(shown.entry);
        if !self.settings(entry).randomize() {
            return Ok(WalkKind::Own);
        }
        if *first == entry && self.is_homeless(alloc, shown.header, entry)? {
            return Ok(WalkKind::Random(entry));
        }
        Ok(WalkKind::Behind(*first))
    }

    /// Whether a header is a random one at an input, and comes from there to no portal by some choice.
    fn is_homeless(&self, alloc: Global, header: u32, at: SwitchPort) -> Result<bool, NoMemory>
        requires { IsInput (length (routes_in self.now).settings) at }
    {
        if header >= self.header_count() || !self.is_random_at(header, at) {
            return Ok(false);
        }
        let comes = self.comes_from(alloc, header, Goal::Portal, at)?;
        Ok(!comes)
    }
}
