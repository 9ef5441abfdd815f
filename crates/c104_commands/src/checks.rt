//! The check of a description's labels.
ghost use Rattle.std.specs.Prelude.{Ok, Result, false, true, ◌≡◌, ◌≢◌};
ghost use Rattle.{c104_check.specs.{Checks.IsCause, Routes.{IsAccepted, routes_of}}, c104_commands.specs.Checks.LabelRefusalEnds};
ghost use Rattle.{c104_commands.specs.Checks.PrintsCheck, c104_describe.specs.PlanText.read_description};
ghost use Rattle.c104_describe.specs.declared.faults.PlanFault.{PlanFault as ThePlanFault};
ghost use Rattle.{c104_label.specs.Images.is_labelled_shape, c104_plan.specs.{PlanImage.Fits, Plans.Plan as ThePlan}};
ghost use Rattle.c104_setup.specs.{Endings.{CommandEnds, CommandRuns}, Setups.ComesTo};
ghost use Rattle.c104_check.specs.declared.faults.CheckFault.TheVariants as check_fault;

use crate::advice::{refusal_advice, waiting_advice};
use crate::texts::check_fault_text;
use c104_check::{CheckFault, check};
use c104_mistakes::{About, Messages, tell_lines};
use c104_plan::MAX_DESCRIPTION;
use c104_setup::{Setup, Status, refuse, set_up};
use c104_stream::{Halt, read_up_to, write_whole};
use std::alloc::Global;
use std::io::{Read, Write};

/// Reads a description and checks its labels; writes `accepted`, or the first fault of the labels, or of the
/// description.
///
/// Reading ends at 1 MiB, whatever the reader. Each error of the reader or the writer is a fault at once. People are
/// told why the description or its labels are refused; what is written and how it ends are the same whatever takes the
/// messages does.
pub fn check_command<D: Read, W: Write, M: Messages>(
    alloc: Global,
    description: &mut D,
    writer: &mut W,
    messages: &mut M,
) -> Status
    ensures { CommandRuns PrintsCheck (D.remaining description.old)
        (W.contents writer.old) (W.contents writer.new) result }
{
    let text = match read_up_to(alloc, MAX_DESCRIPTION, description) {
        Ok(text) => text,
        Err(fault) => return Status::of_halt(Halt::from(fault), 0),
    };
    check_text(alloc, text.as_slice(), writer, messages)
}

/// The same of a description that is read.
#[tactic(auto, using(crate::proofs::ReadTexts::text_refused))]
fn check_text<W: Write, M: Messages>(
    alloc: Global,
    description: &[u8],
    writer: &mut W,
    messages: &mut M,
) -> Status
    ensures { CommandEnds PrintsCheck (read_description description.now)
        (W.contents writer.old) (W.contents writer.new) result }
{
    match set_up(alloc, description, messages) {
        Ok(setup) => check_setup(alloc, description, &setup, writer, messages),
        Err(fault) => refuse(alloc, description, fault, writer, messages),
    }
}

/// Checks the labels of the network of a description.
#[tactic(auto, using(crate::proofs::LabelRefusals::check_label_refused))]
fn check_setup<W: Write, M: Messages>(
    alloc: Global,
    description: &[u8],
    setup: &Setup,
    writer: &mut W,
    messages: &mut M,
) -> Status
    requires fits { Fits setup.now.image setup.now.plan }
    requires accepted { is_labelled_shape setup.now.plan.shape ≡ true
        → IsAccepted (routes_of setup.now.plan setup.now.image) }
    ensures { (due : Result ThePlan ThePlanFault) → ComesTo due (Ok (setup.now.plan, setup.now.image))
        → CommandEnds PrintsCheck due (W.contents writer.old) (W.contents writer.new) result }
{
    match check(alloc, &setup.plan, &setup.image) {
        Ok(_) => accept_labels(alloc, description, setup, writer, messages),
        Err(CheckFault::NoMemory) => Status::NoMemory,
        Err(fault) => refuse_labels_of(alloc, Some(description), setup, &fault, writer, messages),
    }
}

/// Tells that the labels of a network are accepted.
fn accept_labels<W: Write, M: Messages>(
    alloc: Global,
    description: &[u8],
    setup: &Setup,
    writer: &mut W,
    messages: &mut M,
) -> Status
    requires fits { Fits setup.now.image setup.now.plan }
    requires accepted { IsAccepted (routes_of setup.now.plan setup.now.image) }
    ensures { (due : Result ThePlan ThePlanFault) → ComesTo due (Ok (setup.now.plan, setup.now.image))
        → CommandEnds PrintsCheck due (W.contents writer.old) (W.contents writer.new) result }
{
    let Ok(()) = write_whole(writer, b"accepted\n") else {
        return Status::CannotWrite;
    };
    if messages.are_wanted() {
        tell_of_cycles(alloc, description, setup, messages);
    }
    Status::Done
}

/// Tells people whether packets can wait for one another forever in a network whose labels are accepted, line by line,
/// where there is memory for it.
fn tell_of_cycles<M: Messages>(alloc: Global, description: &[u8], setup: &Setup, messages: &mut M)
    requires fits { Fits setup.now.image setup.now.plan }
    requires accepted { IsAccepted (routes_of setup.now.plan setup.now.image) }
{
    let Ok(advice) = waiting_advice(alloc, Some(description), &setup.plan, &setup.image) else {
        return;
    };
    tell_lines(About::Description, advice.as_str(), messages);
}

/// Tells why the labels of a network are refused, which ends any command that checks them: first it writes that, and then it
/// tells people of it. Out of memory nothing is written.
pub(crate) fn refuse_labels<W: Write, M: Messages>(
    alloc: Global,
    setup: &Setup,
    fault: &CheckFault,
    writer: &mut W,
    messages: &mut M,
) -> Status
    requires fits { Fits setup.now.image setup.now.plan }
    requires cause { IsCause (routes_of setup.now.plan setup.now.image) fault.now }
    requires told { fault.now ≢ check_fault.NoMemory }
    requires shape { is_labelled_shape setup.now.plan.shape ≡ false }
    ensures { LabelRefusalEnds setup.now.plan setup.now.image
        (W.contents writer.old) (W.contents writer.new) result }
{
    refuse_labels_of(alloc, None, setup, fault, writer, messages)
}

/// The same; where the text of the description is known, the lines of which people are told are for this text.
fn refuse_labels_of<W: Write, M: Messages>(
    alloc: Global,
    description: Option<&[u8]>,
    setup: &Setup,
    fault: &CheckFault,
    writer: &mut W,
    messages: &mut M,
) -> Status
    requires fits { Fits setup.now.image setup.now.plan }
    requires cause { IsCause (routes_of setup.now.plan setup.now.image) fault.now }
    requires told { fault.now ≢ check_fault.NoMemory }
    requires shape { is_labelled_shape setup.now.plan.shape ≡ false }
    ensures { LabelRefusalEnds setup.now.plan setup.now.image
        (W.contents writer.old) (W.contents writer.new) result }
{
    let Ok(text) = check_fault_text(alloc, &setup.plan, fault) else {
        return Status::NoMemory;
    };
    let Ok(()) = write_whole(writer, text.as_bytes()) else {
        return Status::CannotWrite;
    };
    if messages.are_wanted() {
        advise(alloc, description, setup, fault, messages);
    }
    Status::Refused
}

/// Tells people why the labels of a network are refused and what mends them, line by line, where there is
/// memory for it.
fn advise<M: Messages>(
    alloc: Global,
    description: Option<&[u8]>,
    setup: &Setup,
    fault: &CheckFault,
    messages: &mut M,
)
    requires fits { Fits setup.now.image setup.now.plan }
{
    let Ok(advice) = refusal_advice(alloc, description, &setup.plan, &setup.image, fault) else {
        return;
    };
    tell_lines(About::Description, advice.as_str(), messages);
}
