//! Whether packets can wait for one another forever in a network whose labels are accepted, and which row would make
//! that end.
//!
//! How the row is found has no clause. What it has to be is a clause: with it the labels are accepted too, and there is no
//! cycle of channel dependencies.
ghost use Rattle.std.specs.Prelude.{IfOk, IfSome};
ghost use Rattle.{c104_check.specs.Routes.{IsAccepted, routes_of}, c104_fixes.specs.Fixes.{IsWaiting, LeavesNoCycle}};
ghost use Rattle.c104_plan.specs.PlanImage.{Fits};

use crate::fixes::{TriedFix, try_change};
use crate::row_changes::{Change, row_over};
use crate::trials::most_trials;
use c104_check::{
    ChannelDependency, Cycle, DependencyEdge, RanksOrCycle, SwitchPort, channel_dependencies,
    find_cycle, first_randomized,
};
use c104_interval::Select;
use c104_plan::{Image, Plan, Port};
use c104_regs::LINKS;
use c104_token::NoMemory;
use std::alloc::{AllocError, Global};

/// Whether packets can wait for one another forever.
#[derive(Drop)]
pub enum Waiting {
    /// They can't: there is no cycle of channel dependencies. The first input at which random headers are put before
    /// packets, if any are.
    Never(Option<SwitchPort>),
    /// They can, by this cycle. Rows of one input by which they couldn't, if any were found.
    InCycle(Cycle, Option<TriedFix>),
}

/// Whether packets can wait for one another forever with accepted labels. It fails only when out of memory.
pub fn find_waiting(alloc: Global, plan: &Plan, image: &Image) -> Result<Waiting, NoMemory>
    requires fits { Fits image.now plan.now }
    requires accepted { IsAccepted (routes_of plan.now image.now) }
    ensures { IfOk result (IsWaiting plan.now (routes_of plan.now image.now)) }
{
    let found = find_cycle(alloc, plan, image)?;
    match found {
        RanksOrCycle::Ranks(_ranks) => {
            let randomized = first_randomized(alloc, plan, image)?;
            Ok(Waiting::Never(randomized))
        }
        RanksOrCycle::Cycle(cycle) => {
            let edges = channel_dependencies(alloc, plan, image)?;
            let fix = find_break(alloc, plan, cycle.dependencies.as_slice(), edges.as_slice())?;
            Ok(Waiting::InCycle(cycle, fix))
        }
    }
}

/// Rows by which one header of a cycle selects another link at one input, so that the labels are accepted and there is
/// no cycle. None where no change that was tried does it. The edges are all dependencies of the network.
fn find_break(
    alloc: Global,
    plan: &Plan,
    cycle: &[ChannelDependency],
    edges: &[DependencyEdge],
) -> Result<Option<TriedFix>, NoMemory>
    ensures { IfOk result (λ found. IfSome found (λ tried. LeavesNoCycle plan.now tried.image)) }
{
    let changes = changes_of(alloc, plan, cycle, edges)?;
    for change in changes.as_slice() {
        let fix = try_break(alloc, plan, *change)?;
        if fix.is_some() {
            return Ok(fix);
        }
    }
    Ok(None)
}

/// The changes to be tried: of the header of each dependency, at the inputs that depend on its input, and there.
fn changes_of(
    alloc: Global,
    plan: &Plan,
    cycle: &[ChannelDependency],
    edges: &[DependencyEdge],
) -> Result<Vec<Change>, AllocError> {
    let mut changes = Vec::new(alloc);
    for dependency in cycle {
        for edge in edges {
            if edge.next == dependency.input {
                add_changes(alloc, plan, dependency.header, edge.input, &mut changes)?;
            }
        }
        add_changes(
            alloc,
            plan,
            dependency.header,
            dependency.input,
            &mut changes,
        )?;
    }
    Ok(changes)
}

/// The changes by which a header selects another link at an input, that leads to another switch, join these, unless they are as
/// many as are tried.
fn add_changes(
    alloc: Global,
    plan: &Plan,
    header: u32,
    at: SwitchPort,
    changes: &mut Vec<Change>,
) -> Result<(), AllocError> {
    let Some(row) = row_over(alloc, plan, at, header)? else {
        return Ok(());
    };
    for link in 0..LINKS {
        let select = Select::Link(link as u8);
        let peer = plan.peer(Port::Switch(at.switch, link));
        if row.select != select
            && matches!(peer, Some(Port::Switch(_, _)))
            && changes.len() < most_trials(plan)
        {
            changes.push(Change {
                at,
                first: header,
                end: header.saturating_add(1),
                select,
            })?;
        }
    }
    Ok(())
}

/// Rows by which headers select something else at an input, if labels are accepted with them, and the network has no
/// cycle then.
fn try_break(alloc: Global, plan: &Plan, change: Change) -> Result<Option<TriedFix>, NoMemory>
    ensures { IfOk result (λ found. IfSome found (λ tried. LeavesNoCycle plan.now tried.image)) }
{
    let Some(tried) = try_change(alloc, plan, change)? else {
        return Ok(None);
    };
    let found = find_cycle(alloc, plan, &tried.image)?;
    match found {
        RanksOrCycle::Ranks(_) => Ok(Some(tried)),
        RanksOrCycle::Cycle(_) => Ok(None),
    }
}
