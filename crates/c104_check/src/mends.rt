//! What may mend a refused walk. Nothing is proved of it but that it is safe and ends: the caller has to check the labels
//! that it gives.
//!
//! Only the last input of the walk from which some group leads to the owner is mended, by one row, and no other header's
//! way is changed but those without an owner that follow one which is to be sunk. Where a group would have to be another,
//! or a link to be wired, nothing is advised.
ghost use Rattle.c104_plan.specs.PlanImage.{Fits};

use crate::faults::Shown;
use crate::ports::SwitchPort;
use crate::routes::Routes;
use crate::walk_kinds::WalkKind;
use crate::walks::{Goal, Halt, Mark, Way, way_of};
use c104_crossbar::Group;
use c104_interval::Select;
use c104_plan::{Image, Plan};
use c104_regs::LINKS;
use c104_token::NoMemory;
use std::alloc::Global;

/// What a header is to select at an input, so that it comes from there where it should.
#[derive(Clone, Copy, Debug)]
pub struct Mend {
    /// Of which kind the refused walk is.
    pub kind: WalkKind,
    /// The input, one of the walk.
    pub at: SwitchPort,
    /// What the header is to select there: a link of a group that leads to its owner by any choice, and
    /// the sink where it has none. Where it is a random one, it is to be discarded.
    pub select: Select,
}

/// What would mend a refused walk: at the last of its inputs from which some group leads the header to its owner, the
/// nearest such group, and of several that are as near the one of the lowest link. How near a group is goes by the
/// fewest links over which wires lead to the owner from the most distant of its links, whatever switches select. A
/// header without an owner is to be dropped, and a random header is to be discarded, at the last input of the walk,
/// whatever becomes there of others.
///
/// None where no group does at any input of the walk. It fails only when out of memory.
pub fn find_mend(
    alloc: Global,
    plan: &Plan,
    image: &Image,
    shown: &Shown,
) -> Result<Option<Mend>, NoMemory>
    requires { Fits image.now plan.now }
{
    let routes = Routes::new(alloc, plan, image)?;
    let kind = routes.walk_kind(alloc, shown)?;
    let select = match kind.goal(routes.owner(shown.header)) {
        Some(Goal::Owner(owner)) => return routes.mend_owned(alloc, shown, kind, owner),
        Some(Goal::Portal) => Select::Discard,
        None => Select::Sink,
    };
    match shown.walk.as_slice().last() {
        Some(at) => Ok(Some(Mend {
            kind,
            at: *at,
            select,
        })),
        None => Ok(None),
    }
}

impl<'a> Routes<'a> {
    ghost use Rattle.std.specs.Prelude.{length, ◌<◌};
    ghost use Rattle.{c104_check.specs.Trails.{IsInput, routes_in}, c104_regs.specs.declared.registers.TheConstants.LINKS as THE_LINKS};

    /// What would mend the walk of a header with an owner.
    fn mend_owned(
        &self,
        alloc: Global,
        shown: &Shown,
        kind: WalkKind,
        owner: usize,
    ) -> Result<Option<Mend>, NoMemory> {
        let walk = shown.walk.as_slice();
        for followers in 0..walk.len() {
            let at = walk[walk.len() - 1 - followers];
            if let Some(link) = self.nearest_leading(alloc, shown.header, owner, at.switch)? {
                let select = Select::Link(link);
                return Ok(Some(Mend { kind, at, select }));
            }
        }
        Ok(None)
    }

    /// Whether all links of a group lead a header to its owner.
    pub(crate) fn all_lead(
        &self,
        alloc: Global,
        header: u32,
        owner: usize,
        switch: usize,
        group: Group,
    ) -> Result<bool, NoMemory>
        requires switch { switch < length (routes_in self.now).settings }
        requires below { group.last < THE_LINKS }
    {
        for link in group.first..group.last + 1 {
            let leads = match way_of(self.peer(SwitchPort { switch, link }), Goal::Owner(owner)) {
                Way::Astray(_) => false,
                Way::Home => true,
                Way::On(next) => {
                    self.has(next) && self.comes_from(alloc, header, Goal::Owner(owner), next)?
                }
            };
            if !leads {
                return Ok(false);
            }
        }
        Ok(true)
    }

    /// Whether a header comes from an input where it should.
    pub(crate) fn comes_from(
        &self,
        alloc: Global,
        header: u32,
        goal: Goal,
        at: SwitchPort,
    ) -> Result<bool, NoMemory>
        requires { IsInput (length (routes_in self.now).settings) at }
    {
        let mut marks = vec![in alloc; Mark::New; self.switch_count() * LINKS]?;
        let mut walk = Vec::new(alloc);
        match self.walk_on(header, goal, at, &mut walk, &mut marks) {
            Ok(()) => Ok(true),
            Err(Halt::NoMemory) => Err(NoMemory),
            Err(Halt::Fault(_)) => Ok(false),
        }
    }
}
