//! The labelling by `row` lines of a description's network without some of the wires between its switches.
ghost use Rattle.std.specs.{Prelude.{IfOk, IfSome, List, length, ℕ, ◌<◌, ◌≡◌}, String.string_bytes};
ghost use Rattle.c104_commands.specs.LeftRows.{IsLeftOf, PrintsLeft, PrintsRest, Takes, TakesAll, is_at, names_of, unwired_text, wire_at};
ghost use Rattle.{c104_plan.specs.{PlanImage.Fits, Plans.Plan as ThePlan}, c104_setup.specs.Endings.CommandRuns};

use crate::label_rows::{UNSAYABLE, unsayable_text};
use crate::plans_without::plan_without;
use crate::shape_lines::shaped_text;
use crate::shows::{Printed, Shows, show_description};
use c104_label::UpDownReport;
use c104_mistakes::Messages;
use c104_plan::{Image, Plan, Wire};
use c104_setup::{Setup, Status};
use c104_token::NoMemory;
use std::alloc::{AllocError, Global};
use std::io::{Read, Write};

/// What people are told where no wire between switches is at a port.
const UNWIRED: &str = "no wire between switches is at this port";

/// What is left of a plan without the wires at some ports, or the first of these at which there is none.
#[derive(Drop)]
enum Left<'a> {
    Plan(Plan),
    Unwired(&'a str),
}

/// Shows what is left of a network without the wires between switches at some ports.
#[derive(Clone, Copy)]
struct LeftRows<'a, 'b> {
    ports: &'a [&'b str],
}

impl Shows for LeftRows<'_, '_> {
    ghost use Rattle.c104_commands.specs.LeftRows.{PrintsLeft, names_of};

    ghost prints = { λ shows. PrintsLeft (names_of shows.ports.now) };

    fn show(&self, alloc: Global, setup: &Setup) -> Result<Printed, NoMemory> {
        print_left(alloc, &setup.plan, &setup.image, setup.report, self.ports)
    }
}

/// Reads a description and labels its network; writes what `label_rows_command` does, of the network without the wires
/// between switches at these ports, one after the other, whose links are taken out of their groups; or at which port there
/// is no such wire, which is refused. A port is named as descriptions are printed, `A.0`.
///
/// Reading ends at 1 MiB, whatever the reader. Each error of the reader or the writer is a fault at once. People are
/// told why the description, its labels or a port are refused, and which labels up and down were made; what is written and
/// how it ends are the same whatever takes the messages does.
pub fn rows_without_command<D: Read, W: Write, M: Messages>(
    alloc: Global,
    ports: &[&str],
    description: &mut D,
    writer: &mut W,
    messages: &mut M,
) -> Status
    ensures { CommandRuns (PrintsLeft (names_of ports.now)) (D.remaining description.old)
        (W.contents writer.old) (W.contents writer.new) result }
{
    show_description(alloc, &LeftRows { ports }, description, writer, messages)
}

/// What is printed of a network without the wires at these ports.
fn print_left(
    alloc: Global,
    plan: &Plan,
    image: &Image,
    report: Option<UpDownReport>,
    ports: &[&str],
) -> Result<Printed, NoMemory>
    requires { Fits image.now plan.now }
    ensures { IfOk result (λ printed.
        PrintsLeft (names_of ports.now) plan.now image.now printed.text.items printed.refused) }
{
    match image.row_plan(alloc, plan)? {
        Some(rows) => print_rest(alloc, plan, report, rows, ports),
        None => {
            let text = unsayable_text(alloc)?;
            Ok(Printed::refused(text, UNSAYABLE))
        }
    }
}

/// What is printed of the plan by hand of a network without the wires at these ports.
fn print_rest(
    alloc: Global,
    plan: &Plan,
    report: Option<UpDownReport>,
    rows: Plan,
    ports: &[&str],
) -> Result<Printed, NoMemory>
    ensures { IfOk result (λ printed. PrintsRest (names_of ports.now) plan.now rows printed.text.items printed.refused) }
{
    let left = left_of(alloc, rows, ports)?;
    show_rest(alloc, plan, report, &left)
}

/// What is printed of what is left.
fn show_rest(
    alloc: Global,
    plan: &Plan,
    report: Option<UpDownReport>,
    left: &Left<'_>,
) -> Result<Printed, NoMemory>
    ensures { (names : List (List ℕ)) (rows : ThePlan) → IsLeftOf rows names left.now
        → IfOk result (λ printed. PrintsRest names plan.now rows printed.text.items printed.refused) }
{
    match left {
        Left::Plan(left) => {
            let text = shaped_text(alloc, plan, report, left)?;
            Ok(Printed::of_labels(text))
        }
        Left::Unwired(port) => {
            let text = unwired_text(alloc, port)?;
            Ok(Printed::refused(text, UNWIRED))
        }
    }
}

/// What is left of a plan.
fn left_of<'a>(alloc: Global, rows: Plan, ports: &[&'a str]) -> Result<Left<'a>, NoMemory>
    ensures { IfOk result (IsLeftOf rows (names_of ports.now)) }
{
    let mut left = rows;
    match take_all(alloc, &mut left, ports)? {
        Some(port) => Ok(Left::Unwired(port)),
        None => Ok(Left::Plan(left)),
    }
}

/// A plan loses the wires at ports, up to the first of these at which there is none.
fn take_all<'a>(
    alloc: Global,
    left: &mut Plan,
    ports: &[&'a str],
) -> Result<Option<&'a str>, NoMemory>
    ensures { IfOk result (TakesAll left.old (names_of ports.now) left.new) }
{
    for number in 0..ports.len() {
        if !take_one(alloc, left, ports[number])? {
            return Ok(Some(ports[number]));
        }
    }
    Ok(None)
}

/// A plan loses the wire between switches that is at a port, if there is one.
fn take_one(alloc: Global, left: &mut Plan, port: &str) -> Result<bool, NoMemory>
    ensures { IfOk result (Takes left.old port.now left.new) }
{
    let Some(number) = wire_at(alloc, left, port)? else {
        return Ok(false);
    };
    *left = plan_without(alloc, left, number)?;
    Ok(true)
}

/// The number of the wire between switches that is at a port.
fn wire_at(alloc: Global, plan: &Plan, port: &str) -> Result<Option<usize>, AllocError>
    ensures number { IfOk result (λ number. number ≡ wire_at plan.now port.now) }
    ensures inside { IfOk result (λ number. IfSome number (λ k. k < length plan.now.wires)) }
{
    let wires = plan.wires();
    for number in 0..wires.len() {
        if is_at(alloc, plan, port, wires[number])? {
            return Ok(Some(number));
        }
    }
    Ok(None)
}

/// Whether a wire is at a port.
fn is_at(alloc: Global, plan: &Plan, port: &str, wire: Wire) -> Result<bool, AllocError>
    ensures { IfOk result (λ is. is ≡ is_at plan.now port.now wire) }
{
    let here = plan.port_text(alloc, wire.here)?;
    let there = plan.port_text(alloc, wire.there)?;
    Ok(here.as_str() == port || there.as_str() == port)
}

/// The line where no wire between switches is at a port.
fn unwired_text(alloc: Global, port: &str) -> Result<String, AllocError>
    ensures { IfOk result (λ text. string_bytes text ≡ unwired_text port.now) }
{
    format!(in alloc; "rows 2 NoWire: {port}\n")
}
