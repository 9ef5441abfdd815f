//! How a node stands, in words.
ghost use Rattle.std.specs.Prelude.{◌<◌};

use crate::leftovers::waiting;
use crate::reasons::add_port;
use crate::registers::{dropped_packets, puts_random};
use crate::waiting::{add_line, stopped_line};
use c104_mistakes::{counted, header_text};
use c104_net::TracedNet;
use c104_plan::{Plan, Port};
use c104_switch::{LINKS, LinkView, Phase};
use std::alloc::{AllocError, Global};

/// How each link of a switch stands that has a wire: three lines for each, and one of the
/// packets that it has dropped. Before them it is told if the switch isn't started.
pub(crate) fn switch_text(
    alloc: Global,
    net: &TracedNet,
    switch: usize,
) -> Result<String, AllocError> {
    let mut text = String::new(alloc);
    if let Some(line) = stopped_line(alloc, net, switch)? {
        add_line(&mut text, line.as_str())?;
    }
    for link in 0..LINKS {
        let line = link_text(alloc, net, switch, link)?;
        if !line.is_empty() {
            add_line(&mut text, line.as_str())?;
        }
    }
    if text.is_empty() {
        text.push_str("no link of this switch has a wire")?;
    }
    Ok(text)
}

/// How a link of a switch stands: nothing where it has no wire.
pub(crate) fn link_text(
    alloc: Global,
    net: &TracedNet,
    switch: usize,
    link: usize,
) -> Result<String, AllocError>
    requires { link < 32 }
{
    let mut text = String::new(alloc);
    let plan = net.plan();
    let port = Port::Switch(switch, link);
    if let Some(other) = plan.peer(port)
        && let Some(view) = net.view_link(switch, link)
    {
        let puts_random = puts_random(net, switch, link);
        add_link(alloc, plan, (port, other), &view, puts_random, &mut text)?;
        add_dropped(alloc, net, switch, link, &mut text)?;
    }
    Ok(text)
}

/// How many packets the input of a link has dropped joins the text, if it has.
fn add_dropped(
    alloc: Global,
    net: &TracedNet,
    switch: usize,
    link: usize,
    text: &mut String,
) -> Result<(), AllocError>
    requires { link < 32 }
{
    let count = dropped_packets(net, switch, link);
    if count == 0 {
        return Ok(());
    }
    let packets = counted(alloc, count, "packet")?;
    write!(text, "\n  dropped: {packets}")
}

/// How a link stands joins the text. The ports are the link's, and the one at the other end of its wire.
fn add_link(
    alloc: Global,
    plan: &Plan,
    ports: (Port, Port),
    view: &LinkView,
    puts_random: bool,
    text: &mut String,
) -> Result<(), AllocError> {
    add_port(alloc, plan, ports.0, text)?;
    text.push_str(", on a wire to ")?;
    add_port(alloc, plan, ports.1, text)?;
    add_input_side(alloc, plan, view, puts_random, text)?;
    add_output_side(alloc, view, text)
}

/// How the input side of a link stands joins the text.
fn add_input_side(
    alloc: Global,
    plan: &Plan,
    view: &LinkView,
    puts_random: bool,
    text: &mut String,
) -> Result<(), AllocError> {
    let tokens = counted(alloc, view.input_level, "token")?;
    let granted = view.granted;
    let phase = phase_text(alloc, plan, view, puts_random)?;
    write!(
        text,
        "\n  input: holds {tokens}, may take {granted} more, {phase}"
    )
}

/// How the output side of a link stands joins the text.
fn add_output_side(alloc: Global, view: &LinkView, text: &mut String) -> Result<(), AllocError> {
    let tokens = counted(alloc, view.output_level, "token")?;
    let credit = view.credit;
    let owner = owner_text(alloc, view.owner)?;
    write!(
        text,
        "\n  output: holds {tokens}, may send {credit}, {owner}"
    )
}

/// What an input does with its next token, which may put a random header before a packet.
fn phase_text(
    alloc: Global,
    plan: &Plan,
    view: &LinkView,
    puts_random: bool,
) -> Result<String, AllocError> {
    match &view.phase {
        Phase::Fresh if puts_random => {
            format!(in alloc; "waits for a packet, before which it puts a random header")
        }
        Phase::Fresh => format!(in alloc; "waits for a packet"),
        Phase::Head(_) => format!(in alloc; "reads a header"),
        Phase::Want(header, link) => {
            let header = header_text(alloc, plan, header.value())?;
            let link = *link;
            format!(in alloc; "wants an output of the group of link {link} for the header {header}")
        }
        Phase::Stream(output) => {
            let output = *output;
            format!(in alloc; "streams its packet to output {output}")
        }
        Phase::Sinking => format!(in alloc; "drops its packet"),
    }
}

/// Which input owns an output.
fn owner_text(alloc: Global, owner: Option<usize>) -> Result<String, AllocError> {
    match owner {
        None => format!(in alloc; "no input owns it"),
        Some(input) => format!(in alloc; "input {input} owns it"),
    }
}

/// How a terminal stands, in three lines.
pub(crate) fn terminal_text(
    alloc: Global,
    net: &TracedNet,
    terminal: usize,
) -> Result<String, AllocError> {
    let plan = net.plan();
    let port = Port::Terminal(terminal);
    let mut text = plan.port_text(alloc, port)?;
    if let Some(view) = net.view_terminal(terminal) {
        text.push_str(", on a wire to ")?;
        if let Some(other) = plan.peer(port) {
            add_port(alloc, plan, other, &mut text)?;
        }
        add_sending(alloc, view.waiting, view.credit, &mut text)?;
        let arrived = count_arrived(alloc, net, terminal);
        add_receiving(alloc, view.undrained, view.granted, arrived, &mut text)?;
    }
    Ok(text)
}

/// How many tokens wait to go out of a terminal, and how many may, joins the text.
fn add_sending(
    alloc: Global,
    count: usize,
    credit: usize,
    text: &mut String,
) -> Result<(), AllocError> {
    let wait = waiting(alloc, count)?;
    write!(text, "\n  sends: {wait}, {credit} may go")
}

/// How many tokens wait to arrive at a terminal, how many more may come in, and how many have arrived, joins the text.
fn add_receiving(
    alloc: Global,
    count: usize,
    granted: usize,
    arrived: usize,
    text: &mut String,
) -> Result<(), AllocError> {
    let wait = waiting(alloc, count)?;
    write!(
        text,
        "\n  receives: {wait} to arrive, {granted} more may come in, {arrived} arrived so far"
    )
}

/// How many tokens have arrived at a terminal; 0 when out of memory.
fn count_arrived(alloc: Global, net: &TracedNet, terminal: usize) -> usize {
    match net.arrived(alloc, terminal) {
        Ok(Some(tokens)) => tokens.len(),
        Ok(None) | Err(_) => 0,
    }
}
