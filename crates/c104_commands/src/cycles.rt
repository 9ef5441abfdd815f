//! The search for a cycle of channel dependencies in a description's network.
ghost use Rattle.std.specs.{Prelude.{IfOk, Ok, Result, true, ◌≡◌}, String.string_bytes};
ghost use Rattle.{c104_check.specs.Routes.{IsAccepted, routes_of}, c104_commands.specs.Cycles.{PrintsCycles, TellsCycle, TellsCycles}};
ghost use Rattle.{c104_describe.specs.declared.faults.PlanFault.PlanFault as ThePlanFault, c104_label.specs.Images.is_labelled_shape};
ghost use Rattle.{c104_plan.specs.{PlanImage.Fits, Plans.Plan as ThePlan}, c104_setup.specs.Endings.{CommandEnds, CommandRuns}};
ghost use Rattle.c104_setup.specs.Setups.{ComesTo};

use crate::checks::refuse_labels;
use crate::cycle_texts::{acyclic_text, cycle_text, edges_text};
use c104_check::{CheckFault, RanksOrCycle, channel_dependencies, check, find_cycle};
use c104_mistakes::Messages;
use c104_plan::{Image, Plan};
use c104_setup::{Setup, Status, read_setup};
use c104_stream::write_whole;
use c104_token::NoMemory;
use std::alloc::Global;
use std::io::{Read, Write};

/// Reads a description and looks for a cycle of channel dependencies in its network; writes `acyclic`, or a cycle,
/// which is refused. Where all dependencies are asked for, it first writes a line for each of them. Where the
/// labels or the description are refused, it writes what `check_command` does.
///
/// Reading ends at 1 MiB, whatever the reader. Each error of the reader or the writer is a fault at once. People are
/// told why the description or its labels are refused; what is written and how it ends are the same whatever takes the
/// messages does.
#[tactic(auto, using(c104_setup::proofs::Refusals::runs_before))]
pub fn cycles_command<D: Read, W: Write, M: Messages>(
    alloc: Global,
    description: &mut D,
    all: bool,
    writer: &mut W,
    messages: &mut M,
) -> Status
    ensures { CommandRuns (PrintsCycles all) (D.remaining description.old)
        (W.contents writer.old) (W.contents writer.new) result }
{
    match read_setup(alloc, description, writer, messages) {
        Ok(setup) => search_setup(alloc, &setup, all, writer, messages),
        Err(status) => status,
    }
}

/// Searches a network, unless its labels are refused.
#[tactic(auto, using(crate::proofs::LabelRefusals::cycles_label_refused))]
fn search_setup<W: Write, M: Messages>(
    alloc: Global,
    setup: &Setup,
    all: bool,
    writer: &mut W,
    messages: &mut M,
) -> Status
    requires fits { Fits setup.now.image setup.now.plan }
    requires accepted { is_labelled_shape setup.now.plan.shape ≡ true
        → IsAccepted (routes_of setup.now.plan setup.now.image) }
    ensures { (due : Result ThePlan ThePlanFault) → ComesTo due (Ok (setup.now.plan, setup.now.image))
        → CommandEnds (PrintsCycles all) due (W.contents writer.old) (W.contents writer.new) result }
{
    match check(alloc, &setup.plan, &setup.image) {
        Ok(_) => search_accepted(alloc, setup, all, writer),
        Err(CheckFault::NoMemory) => Status::NoMemory,
        Err(fault) => refuse_labels(alloc, setup, &fault, writer, messages),
    }
}

/// Searches a network whose labels are accepted.
fn search_accepted<W: Write>(alloc: Global, setup: &Setup, all: bool, writer: &mut W) -> Status
    requires fits { Fits setup.now.image setup.now.plan }
    requires accepted { IsAccepted (routes_of setup.now.plan setup.now.image) }
    ensures { (due : Result ThePlan ThePlanFault) → ComesTo due (Ok (setup.now.plan, setup.now.image))
        → CommandEnds (PrintsCycles all) due (W.contents writer.old) (W.contents writer.new) result }
{
    let Ok(found) = find(alloc, &setup.plan, &setup.image, all) else {
        return Status::NoMemory;
    };
    let Ok(()) = write_whole(writer, found.text.as_bytes()) else {
        return Status::CannotWrite;
    };
    if found.cyclic {
        Status::Refused
    } else {
        Status::Done
    }
}

/// What is printed of a network, and whether it has a cycle.
#[derive(Drop)]
struct Found {
    text: String,
    cyclic: bool,
}

/// What is printed of a network whose labels are accepted.
fn find(alloc: Global, plan: &Plan, image: &Image, all: bool) -> Result<Found, NoMemory>
    requires fits { Fits image.now plan.now }
    requires accepted { IsAccepted (routes_of plan.now image.now) }
    ensures { IfOk result (λ found.
        TellsCycles all plan.now image.now (string_bytes found.text) found.cyclic) }
{
    if all {
        find_all(alloc, plan, image)
    } else {
        find_one(alloc, plan, image)
    }
}

/// The lines of all dependencies, and the line on cycles.
fn find_all(alloc: Global, plan: &Plan, image: &Image) -> Result<Found, NoMemory>
    requires fits { Fits image.now plan.now }
    requires accepted { IsAccepted (routes_of plan.now image.now) }
    ensures { IfOk result (λ found.
        TellsCycles true plan.now image.now (string_bytes found.text) found.cyclic) }
{
    let edges = channel_dependencies(alloc, plan, image)?;
    let mut text = edges_text(alloc, plan, edges.as_slice())?;
    let found = find_one(alloc, plan, image)?;
    text.push_str(found.text.as_str())?;
    let cyclic = found.cyclic;
    Ok(Found { text, cyclic })
}

/// The line on cycles.
fn find_one(alloc: Global, plan: &Plan, image: &Image) -> Result<Found, NoMemory>
    requires fits { Fits image.now plan.now }
    requires accepted { IsAccepted (routes_of plan.now image.now) }
    ensures { IfOk result (λ found.
        TellsCycle plan.now image.now (string_bytes found.text) found.cyclic) }
{
    let found = find_cycle(alloc, plan, image)?;
    match found {
        RanksOrCycle::Ranks(_ranks) => {
            let text = acyclic_text(alloc)?;
            Ok(Found {
                text,
                cyclic: false,
            })
        }
        RanksOrCycle::Cycle(cycle) => {
            let text = cycle_text(alloc, plan, cycle.dependencies.as_slice())?;
            Ok(Found { text, cyclic: true })
        }
    }
}
