//! What a plan is printed as.
ghost use Rattle.std.specs.{Prelude.{IfOk, Ok, OnOk, [], length, map, ◌++◌, ◌∷◌, ◌≡◌, ◌≤◌}, String.string_bytes};
ghost use Rattle.c104_describe.specs.PlanPrint.{base_words, buffer_words, continue_words, counted_words, delete_words, header_words};
ghost use Rattle.c104_describe.specs.PlanPrint.{label_words, labelled_lines, has_text, network_lines, own_text, plan_text, random_words, row_words, shared_lines, shared_text};
ghost use Rattle.c104_describe.specs.{PlanPrint.{sentence, switch_words, terminal_words, text_of, wire_words}, PlanText.read_description};
ghost use Rattle.c104_plan.specs.{Plans.IsPlan, TextCut.most_bytes, declared.plans.Shape.TheVariants.Hand};

use crate::description::read_description;
use crate::faults::PlanFaultKind;
use crate::print_tables::add_tables;
use c104_plan::{MAX_DESCRIPTION, Plan, PlanRandom, PlanRow, Shape, Terminal, select_text};
use c104_token::NoMemory;
use std::alloc::{AllocError, Global};

/// Prints a plan as a description: `header n` and `buffer n`, then the network, and then the `continue`,
/// `delete`, `base`, `row` and `random` lines, each kind in the order of its list. The network is one `mesh`
/// or `cube` line, or `switch`, `terminal` and `wire` lines, each kind in the order of its list, and behind
/// these the `label` line where there was one. A terminal's line says how many labels its range has, and
/// where it begins unless there is a `label` line.
///
/// If the lines so give the plan again, `base` and `row` lines name a switch alone, behind all others and switch by
/// switch: they are those of the input of its first row.
///
/// Of what is printed `read_description` gives that very plan, if it has at most 1 MiB.
#[tactic(auto, using(crate::proofs::PrintedShared::read_back))]
pub fn print_plan(alloc: Global, plan: &Plan) -> Result<String, NoMemory>
    ensures text { IfOk result (λ text. string_bytes text ≡ plan_text plan.now) }
    ensures read_back { length (plan_text plan.now) ≤ most_bytes →
        read_description (plan_text plan.now) ≡ Ok plan.now }
{
    plan_text(alloc, plan)
}

/// The text of a plan.
#[tactic(auto, unfolding(crate::specs::PlanPrint::has_shared_tables))]
fn plan_text(alloc: Global, plan: &Plan) -> Result<String, NoMemory>
    ensures text { IfOk result (λ text. string_bytes text ≡ plan_text plan.now) }
    ensures kept { IsPlan plan.now }
{
    let has_rows = !plan.rows().is_empty();
    let own = own_text(alloc, plan)?;
    if !has_rows || own.len() > MAX_DESCRIPTION {
        return Ok(own);
    }
    let shared = shared_text(alloc, plan)?;
    if has_text(alloc, own.as_bytes(), shared.as_bytes())? {
        Ok(shared)
    } else {
        Ok(own)
    }
}

/// Whether the plan that a text gives has another text line by line. The only error is out of memory.
fn has_text(alloc: Global, own: &[u8], text: &[u8]) -> Result<bool, NoMemory>
    ensures { IfOk result (λ has. has ≡ has_text own.now (read_description text.now)) }
{
    match read_description(alloc, text) {
        Ok(read) => {
            let again = own_text(alloc, &read)?;
            Ok(again.as_bytes() == own)
        }
        Err(fault) => match fault.kind {
            PlanFaultKind::NoMemory => Err(NoMemory),
            _ => Ok(false),
        },
    }
}

/// The text of a plan line by line.
fn own_text(alloc: Global, plan: &Plan) -> Result<String, NoMemory>
    ensures { IfOk result (λ text. string_bytes text ≡ own_text plan.now) }
{
    let mut text = begun_text(alloc, plan)?;
    add_parts(alloc, &mut text, plan)?;
    Ok(text)
}

/// The lines of the header length and the buffer size.
fn begun_text(alloc: Global, plan: &Plan) -> Result<String, AllocError>
    ensures { IfOk result (λ text. string_bytes text ≡
        text_of (header_words plan.now.header ∷ buffer_words plan.now.cap ∷ [])) }
{
    let header = plan.header();
    let cap = plan.cap();
    format!(in alloc; "header {header}\nbuffer {cap}\n")
}

/// The text of a plan of which each switch has the table of the input of its first row.
fn shared_text(alloc: Global, plan: &Plan) -> Result<String, NoMemory>
    ensures { IfOk result (λ text. string_bytes text ≡ shared_text plan.now) }
{
    let mut text = begun_text(alloc, plan)?;
    add_others(alloc, &mut text, plan)?;
    add_tables(alloc, &mut text, plan)?;
    Ok(text)
}

/// The lines behind those of the header length and the buffer size, but for those of tables, join the text.
fn add_others(alloc: Global, text: &mut String, plan: &Plan) -> Result<(), AllocError>
    requires { string_bytes text.old ≡
        text_of (header_words plan.now.header ∷ buffer_words plan.now.cap ∷ []) }
    ensures { OnOk result (string_bytes text.new ≡ text_of (shared_lines plan.now)) }
{
    add_network(alloc, text, plan)?;
    add_continues(alloc, text, plan)?;
    add_deletes(alloc, text, plan)?;
    add_randoms(alloc, text, plan)?;
    Ok(())
}

/// The lines behind those of the header length and the buffer size join the text.
fn add_parts(alloc: Global, text: &mut String, plan: &Plan) -> Result<(), AllocError>
    requires { string_bytes text.old ≡
        text_of (header_words plan.now.header ∷ buffer_words plan.now.cap ∷ []) }
    ensures { OnOk result (string_bytes text.new ≡ own_text plan.now) }
{
    add_network(alloc, text, plan)?;
    add_continues(alloc, text, plan)?;
    add_deletes(alloc, text, plan)?;
    add_bases(alloc, text, plan)?;
    add_rows(alloc, text, plan)?;
    add_randoms(alloc, text, plan)?;
    Ok(())
}

/// The lines of the network join the text.
fn add_network(alloc: Global, text: &mut String, plan: &Plan) -> Result<(), AllocError>
    ensures { OnOk result (string_bytes text.new ≡
        string_bytes text.old ++ text_of (network_lines plan.now plan.now.shape)) }
{
    match plan.shape() {
        Shape::Hand => add_by_hand(alloc, text, plan),
        Shape::Tree(root) => add_labelled(alloc, text, plan, "tree", Some(root)),
        Shape::UpDown(root) => add_labelled(alloc, text, plan, "up-down", root),
        Shape::Mesh(width, height, terminals) => {
            let line = format!(in alloc; "mesh {width} {height} {terminals}\n")?;
            text.push_str(line.as_str())
        }
        Shape::Cube(dimensions, terminals) => {
            let line = format!(in alloc; "cube {dimensions} {terminals}\n")?;
            text.push_str(line.as_str())
        }
    }
}

/// The lines of a network that is made line by line join the text.
fn add_by_hand(alloc: Global, text: &mut String, plan: &Plan) -> Result<(), AllocError>
    ensures { OnOk result (string_bytes text.new ≡
        string_bytes text.old ++ text_of (network_lines plan.now Hand)) }
{
    add_switches(alloc, text, plan)?;
    add_terminals(alloc, text, plan)?;
    add_wires(alloc, text, plan)?;
    Ok(())
}

/// The lines of a network for which labels are asked by this word, from a root if one is named, join the text.
fn add_labelled(
    alloc: Global,
    text: &mut String,
    plan: &Plan,
    style: &str,
    root: Option<usize>,
) -> Result<(), AllocError>
    ensures { OnOk result (string_bytes text.new ≡
        string_bytes text.old ++ text_of (labelled_lines plan.now (label_words plan.now style.now root))) }
{
    add_switches(alloc, text, plan)?;
    add_counted_terminals(alloc, text, plan)?;
    add_wires(alloc, text, plan)?;
    add_label(alloc, text, plan, style, root)?;
    Ok(())
}

/// The line that asks for labels joins the text.
fn add_label(
    alloc: Global,
    text: &mut String,
    plan: &Plan,
    style: &str,
    root: Option<usize>,
) -> Result<(), AllocError>
    ensures { OnOk result (string_bytes text.new ≡
        string_bytes text.old ++ text_of (label_words plan.now style.now root ∷ [])) }
{
    match root {
        Some(root) => {
            let name = plan.switch_name(root);
            let line = format!(in alloc; "label {style} {name}\n")?;
            text.push_str(line.as_str())
        }
        None => {
            let line = format!(in alloc; "label {style}\n")?;
            text.push_str(line.as_str())
        }
    }
}

/// The lines of the switches join the text.
fn add_switches(alloc: Global, text: &mut String, plan: &Plan) -> Result<(), AllocError>
    ensures { OnOk result (string_bytes text.new ≡
        string_bytes text.old ++ text_of (map switch_words plan.now.switches)) }
{
    for switch in plan.switches() {
        let name = switch.as_str();
        let line = format!(in alloc; "switch {name}\n")?;
        text.push_str(line.as_str())?;
    }
    Ok(())
}

/// The lines of the terminals join the text.
fn add_terminals(alloc: Global, text: &mut String, plan: &Plan) -> Result<(), AllocError>
    ensures { OnOk result (string_bytes text.new ≡
        string_bytes text.old ++ text_of (map (terminal_words plan.now) plan.now.terminals)) }
{
    for terminal in plan.terminals() {
        add_terminal(alloc, text, plan, terminal)?;
    }
    Ok(())
}

/// The line of a terminal joins the text.
fn add_terminal(
    alloc: Global,
    text: &mut String,
    plan: &Plan,
    terminal: &Terminal,
) -> Result<(), AllocError>
    ensures { OnOk result (string_bytes text.new ≡
        string_bytes text.old ++ (sentence (terminal_words plan.now terminal.now) ++ 0x0a ∷ [])) }
{
    let name = terminal.name.as_str();
    let port = plan.port_text(alloc, terminal.host_port())?;
    let count = terminal.count;
    let first = terminal.first;
    let line = format!(in alloc; "terminal {name} {port} labels {count} from {first}\n")?;
    text.push_str(line.as_str())
}

/// The lines of terminals that carry counts alone join the text.
fn add_counted_terminals(alloc: Global, text: &mut String, plan: &Plan) -> Result<(), AllocError>
    ensures { OnOk result (string_bytes text.new ≡
        string_bytes text.old ++ text_of (map (counted_words plan.now) plan.now.terminals)) }
{
    for terminal in plan.terminals() {
        add_counted_terminal(alloc, text, plan, terminal)?;
    }
    Ok(())
}

/// The line of a terminal that carries its count alone joins the text.
fn add_counted_terminal(
    alloc: Global,
    text: &mut String,
    plan: &Plan,
    terminal: &Terminal,
) -> Result<(), AllocError>
    ensures { OnOk result (string_bytes text.new ≡
        string_bytes text.old ++ (sentence (counted_words plan.now terminal.now) ++ 0x0a ∷ [])) }
{
    let name = terminal.name.as_str();
    let port = plan.port_text(alloc, terminal.host_port())?;
    let count = terminal.count;
    let line = format!(in alloc; "terminal {name} {port} labels {count}\n")?;
    text.push_str(line.as_str())
}

/// The lines of the wires join the text.
fn add_wires(alloc: Global, text: &mut String, plan: &Plan) -> Result<(), AllocError>
    ensures { OnOk result (string_bytes text.new ≡
        string_bytes text.old ++ text_of (map (wire_words plan.now) plan.now.wires)) }
{
    for wire in plan.wires() {
        let here = plan.port_text(alloc, wire.here)?;
        let there = plan.port_text(alloc, wire.there)?;
        let line = format!(in alloc; "wire {here} {there}\n")?;
        text.push_str(line.as_str())?;
    }
    Ok(())
}

/// The lines of the continues join the text.
fn add_continues(alloc: Global, text: &mut String, plan: &Plan) -> Result<(), AllocError>
    ensures { OnOk result (string_bytes text.new ≡
        string_bytes text.old ++ text_of (map (continue_words plan.now) plan.now.continues)) }
{
    for port in plan.continues() {
        let port = plan.port_text(alloc, *port)?;
        let line = format!(in alloc; "continue {port}\n")?;
        text.push_str(line.as_str())?;
    }
    Ok(())
}

/// The lines of the deletes join the text.
fn add_deletes(alloc: Global, text: &mut String, plan: &Plan) -> Result<(), AllocError>
    ensures { OnOk result (string_bytes text.new ≡
        string_bytes text.old ++ text_of (map (delete_words plan.now) plan.now.deletes)) }
{
    for terminal in plan.deletes() {
        let name = plan.terminal_name(*terminal);
        let line = format!(in alloc; "delete {name}\n")?;
        text.push_str(line.as_str())?;
    }
    Ok(())
}

/// The lines of the bases join the text.
fn add_bases(alloc: Global, text: &mut String, plan: &Plan) -> Result<(), AllocError>
    ensures { OnOk result (string_bytes text.new ≡
        string_bytes text.old ++ text_of (map (base_words plan.now) plan.now.bases)) }
{
    for base in plan.bases() {
        let port = plan.port_text(alloc, base.port)?;
        let first = base.base;
        let line = format!(in alloc; "base {port} {first}\n")?;
        text.push_str(line.as_str())?;
    }
    Ok(())
}

/// The lines of the rows join the text.
fn add_rows(alloc: Global, text: &mut String, plan: &Plan) -> Result<(), AllocError>
    ensures { OnOk result (string_bytes text.new ≡
        string_bytes text.old ++ text_of (map (row_words plan.now) plan.now.rows)) }
{
    for row in plan.rows() {
        add_row(alloc, text, plan, row)?;
    }
    Ok(())
}

/// The line of a row joins the text.
fn add_row(alloc: Global, text: &mut String, plan: &Plan, row: &PlanRow) -> Result<(), AllocError>
    ensures { OnOk result (string_bytes text.new ≡
        string_bytes text.old ++ (sentence (row_words plan.now row.now) ++ 0x0a ∷ [])) }
{
    let port = plan.port_text(alloc, row.port)?;
    let limit = row.limit;
    let select = select_text(alloc, row.select)?;
    let line = format!(in alloc; "row {port} {limit} {select}\n")?;
    text.push_str(line.as_str())
}

/// The lines of the random headers join the text.
fn add_randoms(alloc: Global, text: &mut String, plan: &Plan) -> Result<(), AllocError>
    ensures { OnOk result (string_bytes text.new ≡
        string_bytes text.old ++ text_of (map (random_words plan.now) plan.now.randoms)) }
{
    for random in plan.randoms() {
        add_random(alloc, text, plan, random)?;
    }
    Ok(())
}

/// The line of an input's random headers joins the text.
fn add_random(
    alloc: Global,
    text: &mut String,
    plan: &Plan,
    random: &PlanRandom,
) -> Result<(), AllocError>
    ensures { OnOk result (string_bytes text.new ≡
        string_bytes text.old ++ (sentence (random_words plan.now random.now) ++ 0x0a ∷ [])) }
{
    let port = plan.port_text(alloc, random.port)?;
    let base = random.base;
    let range = random.range;
    let line = format!(in alloc; "random {port} {base} {range}\n")?;
    text.push_str(line.as_str())
}
