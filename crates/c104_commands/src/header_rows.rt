//! By which links of a description's network a header may leave.
ghost use Rattle.std.specs.{Prelude.{IfOk, MatchOption, Ok, OnOk, Result, [], filter, is_some, ◌++◌, ◌∷◌, ◌≡◌}, String.string_bytes};
ghost use Rattle.c104_check.specs.{Parts.{IsNeverRefused, TellsFirst}, Reach.routes_for, Routes.{port_at, routes_of}};
ghost use Rattle.c104_commands.specs.HeaderRows.{AreRowsOf, IsHeaderRow, IsTableOf, PrintsHeader, digit, fault_line, is_met_by, row_text};
ghost use Rattle.{c104_commands.specs.HeaderRows.table_text, c104_plan.specs.PlanImage.Fits, c104_setup.specs.Endings.CommandRuns};

use crate::shows::{Printed, Shows, Telling, show_description};
use crate::texts::{check_fault_text, port_text};
use c104_check::{CheckFault, Reach, SwitchPort};
use c104_mistakes::Messages;
use c104_plan::{Image, Plan};
use c104_regs::LINKS;
use c104_setup::{Setup, Status};
use c104_token::NoMemory;
use std::alloc::{AllocError, Global};
use std::io::{Read, Write};

/// The names of the columns.
const COLUMNS: &str = "port,own,random,portal\r\n";

/// What of a header holds of a link of a switch.
#[derive(Clone, Copy, Debug)]
pub struct HeaderRow {
    /// The link.
    pub port: SwitchPort,
    /// Whether the header may leave the switch there as the own one of packets.
    pub own: bool,
    /// Whether it may as a random one.
    pub random: bool,
    /// Whether the input there is a portal of it.
    pub portal: bool,
}

/// Shows what holds of a header in a network.
#[derive(Clone, Copy)]
struct Header {
    header: u32,
}

impl Shows for Header {
    ghost use Rattle.c104_commands.specs.HeaderRows.{PrintsHeader};

    ghost prints = { λ shows. PrintsHeader shows.header };

    fn show(&self, alloc: Global, setup: &Setup) -> Result<Printed, NoMemory> {
        print_header(alloc, &setup.plan, &setup.image, self.header)
    }
}

/// Reads a description and labels its network; writes a table with a row for each link of a switch by which a header may leave,
/// as the own one of packets or as a random one, or whose input is a portal of it; and behind it the first fault of the
/// header, which `check_command` writes where it is the first of all, if the header is refused at some terminal. Of a number that is
/// no header of the network there are no rows.
///
/// Reading ends at 1 MiB, whatever the reader. Each error of the reader or the writer is a fault at once. People are
/// told why the description or the header is refused; what is written and how it ends are the same whatever takes the
/// messages does.
pub fn header_rows_command<D: Read, W: Write, M: Messages>(
    alloc: Global,
    header: u32,
    description: &mut D,
    writer: &mut W,
    messages: &mut M,
) -> Status
    ensures { CommandRuns (PrintsHeader header) (D.remaining description.old)
        (W.contents writer.old) (W.contents writer.new) result }
{
    show_description(alloc, &Header { header }, description, writer, messages)
}

/// What is printed of a header.
fn print_header(alloc: Global, plan: &Plan, image: &Image, header: u32) -> Result<Printed, NoMemory>
    requires { Fits image.now plan.now }
    ensures { IfOk result (λ printed.
        PrintsHeader header plan.now image.now printed.text.items printed.refused) }
{
    let reach = Reach::new(alloc, plan, image, header)?;
    print_reach(alloc, plan, image, header, &reach)
}

/// The same of where it may come.
fn print_reach(
    alloc: Global,
    plan: &Plan,
    image: &Image,
    header: u32,
    reach: &Reach<'_>,
) -> Result<Printed, NoMemory>
    requires routes { routes_for reach.now ≡ routes_of plan.now image.now }
    requires header { reach.now.header ≡ header }
    ensures { IfOk result (λ printed.
        PrintsHeader header plan.now image.now printed.text.items printed.refused) }
{
    let mut text = reach_text(alloc, plan, image, reach)?;
    let fault = add_refusal(alloc, plan, reach, &mut text)?;
    Ok(printed(text, fault))
}

/// A text, and why the header is refused, if it is.
fn printed(text: String, fault: Option<CheckFault>) -> Printed
    ensures text { result.text.items ≡ string_bytes text }
    ensures refused { result.refused ≡ is_some fault }
{
    let text = text.into_bytes();
    match fault {
        Some(fault) => Printed {
            text,
            refused: true,
            telling: Telling::Refusal(fault),
        },
        None => Printed {
            text,
            refused: false,
            telling: Telling::Nothing,
        },
    }
}

/// The table of where a header may come.
fn reach_text(
    alloc: Global,
    plan: &Plan,
    image: &Image,
    reach: &Reach<'_>,
) -> Result<String, NoMemory>
    requires { routes_for reach.now ≡ routes_of plan.now image.now }
    ensures { IfOk result (λ text. IsTableOf plan.now (routes_for reach.now) reach.now.header (string_bytes text)) }
{
    let rows = rows_of(alloc, image.switches().len() * LINKS, reach)?;
    Ok(table_text(alloc, plan, rows.as_slice())?)
}

/// The rows of the first links, by switch and link.
fn rows_of(alloc: Global, links: usize, reach: &Reach<'_>) -> Result<Vec<HeaderRow>, AllocError>
    ensures { IfOk result (λ rows. AreRowsOf (routes_for reach.now) reach.now.header links rows.items) }
{
    let mut rows = Vec::new(alloc);
    for place in 0..links {
        add_row(&mut rows, row_at(reach, place))?;
    }
    Ok(rows)
}

/// A row joins others, if anything holds of its link.
fn add_row(rows: &mut Vec<HeaderRow>, row: HeaderRow) -> Result<(), AllocError>
    ensures { OnOk result (rows.new.items ≡ rows.old.items ++ filter is_met_by (row ∷ [])) }
{
    if row.own || row.random || row.portal {
        rows.push(row)?;
    }
    Ok(())
}

/// What holds of a link, by its number.
fn row_at(reach: &Reach<'_>, place: usize) -> HeaderRow
    ensures port { result.port ≡ port_at place }
    ensures row { IsHeaderRow (routes_for reach.now) reach.now.header result }
{
    let port = SwitchPort {
        switch: place / LINKS,
        link: place % LINKS,
    };
    HeaderRow {
        port,
        own: reach.takes(port),
        random: reach.takes_as_random(port),
        portal: reach.is_portal(port),
    }
}

/// The table of rows.
fn table_text(alloc: Global, plan: &Plan, rows: &[HeaderRow]) -> Result<String, AllocError>
    ensures { IfOk result (λ text. string_bytes text ≡ table_text plan.now rows.now) }
{
    let mut text = String::from_str(alloc, COLUMNS)?;
    for row in rows {
        let line = row_text(alloc, plan, *row)?;
        text.push_str(line.as_str())?;
    }
    Ok(text)
}

/// The line of a row.
fn row_text(alloc: Global, plan: &Plan, row: HeaderRow) -> Result<String, AllocError>
    ensures { IfOk result (λ text. string_bytes text ≡ row_text plan.now row) }
{
    let port = port_text(alloc, plan, row.port)?;
    let own = digit(row.own);
    let random = digit(row.random);
    let portal = digit(row.portal);
    format!(in alloc; "{port},{own},{random},{portal}\r\n")
}

/// Whether something holds, as a digit.
fn digit(holds: bool) -> &'static str
    ensures { result.now ≡ digit holds }
{
    if holds { "1" } else { "0" }
}

/// The line that tells why a header is refused joins a text, if it is.
fn add_refusal(
    alloc: Global,
    plan: &Plan,
    reach: &Reach<'_>,
    text: &mut String,
) -> Result<Option<CheckFault>, NoMemory>
    ensures cause { IfOk result (λ why. MatchOption why (IsNeverRefused (routes_for reach.now) reach.now.header)
        (TellsFirst (routes_for reach.now) reach.now.header)) }
    ensures line { IfOk result (λ why. string_bytes text.new ≡ string_bytes text.old ++ fault_line plan.now why) }
{
    let fault = reach.refusal(alloc)?;
    add_fault(alloc, plan, &fault, text)?;
    Ok(fault)
}

/// The line of a fault joins a text, if there is one.
fn add_fault(
    alloc: Global,
    plan: &Plan,
    fault: &Option<CheckFault>,
    text: &mut String,
) -> Result<(), NoMemory>
    ensures { OnOk result (string_bytes text.new ≡ string_bytes text.old ++ fault_line plan.now fault.now) }
{
    let Some(fault) = fault else {
        return Ok(());
    };
    let line = check_fault_text(alloc, plan, fault)?;
    text.push_str(line.as_str())?;
    Ok(())
}
