//! Where the tokens of a packet are, in words.

use crate::buffers::{BUFFER_LIMIT, Buffer, Run, buffer_after, find_end, last_run};
use crate::leftovers::{unfinished_tokens, waiting};
use crate::reasons::add_port;
use crate::waiting::{add_line, end_text};
use c104_mistakes::{
    Mistake, NO_NODE, NO_NUMBER, NOT_A_TERMINAL, TERMINALS_LINK, counted, has_dot, name_of,
    names_switch, names_terminal, nearest_terminal,
};
use c104_net::{Origin, Origins, TracedNet};
use c104_plan::{Plan, Port, read_number};
use c104_switch::Phase;
use std::alloc::{AllocError, Global};

/// The most packets that a terminal can have sent.
const SENT_LIMIT: usize = 1_048_576;

/// More inputs and outputs than a packet can be in at once: a network has at most 64 switches of 32 links.
const MOST_PLACES: usize = 5_000;

/// What is told of a packet whose end is in no buffer and hasn't arrived.
const GONE: &str = "its end is nowhere in the network: it was dropped, or cleared by a reset";

/// Where a packet is that has arrived, before the terminal's name.
const ARRIVED: &str = "it arrived at ";

/// Whether the answer to `where` that begins with this line says of a packet that it is under way.
pub fn is_under_way(line: &str) -> bool {
    match line.split_once(": ") {
        Some((packet, place)) => {
            packet.starts_with("packet ") && !place.starts_with(ARRIVED) && place != GONE
        }
        None => false,
    }
}

/// Where the packet of this number is that the terminal of this name sent; or what is wrong with these words.
pub(crate) fn packet_answer(
    alloc: Global,
    net: &TracedNet,
    name: &[u8],
    number: &[u8],
) -> Result<String, AllocError> {
    let plan = net.plan();
    let Some(terminal) = plan.terminal_number(name) else {
        return name_mistake(plan, name).text(alloc);
    };
    let Some(number) = read_number(number) else {
        return Mistake::new(NO_NUMBER, Some(number)).text(alloc);
    };
    let packet = Origin {
        terminal,
        number: number as usize,
    };
    match net.sent_packet(terminal, packet.number) {
        Some(sent) => {
            let size = sent.bytes.as_slice().len().saturating_add(1);
            sent_text(alloc, net, packet, size)
        }
        None => unsent_text(alloc, net, packet),
    }
}

/// What is wrong with a name that no terminal has.
fn name_mistake<'a>(plan: &'a Plan, name: &'a [u8]) -> Mistake<'a> {
    if has_dot(name) && names_terminal(plan, name) {
        return Mistake::new(TERMINALS_LINK, Some(name));
    }
    if names_switch(plan, name) {
        return Mistake::new(NOT_A_TERMINAL, Some(name));
    }
    Mistake::new(NO_NODE, Some(name)).near(nearest_terminal(plan, name_of(name)))
}

/// That a terminal hasn't sent a packet yet.
fn unsent_text(alloc: Global, net: &TracedNet, packet: Origin) -> Result<String, AllocError> {
    let name = net
        .plan()
        .port_text(alloc, Port::Terminal(packet.terminal))?;
    let count = count_sent(net, packet);
    if count == 0 {
        return format!(in alloc; "{name} has sent no packet");
    }
    let packets = counted(alloc, count, "packet")?;
    format!(in alloc; "{name} has sent only {packets}")
}

/// How many packets a terminal has sent before this one.
fn count_sent(net: &TracedNet, packet: Origin) -> usize {
    for number in 0..packet.number {
        if net.sent_packet(packet.terminal, number).is_none() {
            return number;
        }
    }
    packet.number
}

/// Where a packet is that was sent, of this number of tokens with its end.
fn sent_text(
    alloc: Global,
    net: &TracedNet,
    packet: Origin,
    size: usize,
) -> Result<String, AllocError> {
    let name = net
        .plan()
        .port_text(alloc, Port::Terminal(packet.terminal))?;
    let places = places_text(alloc, net, packet, size)?;
    let number = packet.number;
    format!(in alloc; "packet {number} of {name}: {places}")
}

/// A line for each place where tokens of a packet are, from its end on towards its beginning.
fn places_text(
    alloc: Global,
    net: &TracedNet,
    packet: Origin,
    size: usize,
) -> Result<String, AllocError> {
    let left = size.min(waiting_tokens(net, packet));
    if left > 0 {
        return unfinished_text(alloc, net, packet, left, left == size);
    }
    match find_end(net, packet) {
        Some((buffer, index)) => waiting_text(alloc, net, buffer, index),
        None => arrival_text(alloc, net, packet),
    }
}

/// How many of the tokens that wait to go out of a terminal are of this packet or before it.
fn waiting_tokens(net: &TracedNet, packet: Origin) -> usize {
    let mut waiting = match net.view_terminal(packet.terminal) {
        Some(view) => view.waiting,
        None => 0,
    };
    for after in 1..SENT_LIMIT {
        if waiting == 0 {
            return 0;
        }
        match net.sent_packet(packet.terminal, packet.number.saturating_add(after)) {
            Some(sent) => {
                waiting = waiting.saturating_sub(sent.bytes.as_slice().len().saturating_add(1));
            }
            None => return waiting,
        }
    }
    waiting
}

/// Where a packet is of which this number of tokens, or all of them, wait to go out.
fn unfinished_text(
    alloc: Global,
    net: &TracedNet,
    packet: Origin,
    left: usize,
    is_all: bool,
) -> Result<String, AllocError> {
    let port = Port::Terminal(packet.terminal);
    let mut text = waiting(alloc, left)?;
    text.push_str(" at ")?;
    add_port(alloc, net.plan(), port, &mut text)?;
    text.push_str(" to go out")?;
    if !is_all && let Some(other) = net.plan().peer(port) {
        add_places(alloc, net, Buffer::Input(other), &mut text)?;
    }
    Ok(text)
}

/// Where a packet is whose end is at this index of a buffer.
fn waiting_text(
    alloc: Global,
    net: &TracedNet,
    buffer: Buffer,
    index: usize,
) -> Result<String, AllocError> {
    let Run { tokens, is_cut } = last_run(net, buffer, index);
    let run = Run {
        tokens: tokens.saturating_add(1),
        is_cut,
    };
    let mut text = String::new(alloc);
    add_place(alloc, net, buffer, run, &mut text)?;
    if !is_cut && let Some(next) = buffer_after(net, buffer) {
        add_places(alloc, net, next, &mut text)?;
    }
    Ok(text)
}

/// The lines of a packet whose tokens are the last ones of this buffer join the text: of this buffer, and of those
/// further on.
fn add_places(
    alloc: Global,
    net: &TracedNet,
    first: Buffer,
    text: &mut String,
) -> Result<(), AllocError> {
    let mut buffer = first;
    for _ in 0..MOST_PLACES {
        let run = last_run(net, buffer, BUFFER_LIMIT);
        add_place(alloc, net, buffer, run, text)?;
        if run.is_cut {
            return Ok(());
        }
        let Some(next) = buffer_after(net, buffer) else {
            return Ok(());
        };
        buffer = next;
    }
    Ok(())
}

/// The line of the tokens of a packet in a buffer joins the text.
fn add_place(
    alloc: Global,
    net: &TracedNet,
    buffer: Buffer,
    run: Run,
    text: &mut String,
) -> Result<(), AllocError> {
    match buffer {
        Buffer::Output(switch, link) => add_output(alloc, net, switch, link, run.tokens, text),
        Buffer::Input(Port::Switch(switch, link)) => {
            add_input(alloc, net, switch, link, run, text)
        }
        Buffer::Input(Port::Terminal(terminal)) => add_inbox(alloc, net, terminal, run, text),
    }
}

/// The line of tokens of a packet that are in a way at a port joins the text, with what becomes of them.
fn add_tokens(
    alloc: Global,
    plan: &Plan,
    count: usize,
    way: &str,
    port: Port,
    fate: &str,
    text: &mut String,
) -> Result<(), AllocError> {
    let tokens = counted(alloc, count, "token")?;
    let port = plan.port_text(alloc, port)?;
    let line = format!(in alloc; "{tokens} {way} {port}{fate}")?;
    add_line(text, line.as_str())
}

/// The line of `count` tokens of a packet at an output joins the text.
fn add_output(
    alloc: Global,
    net: &TracedNet,
    switch: usize,
    link: usize,
    count: usize,
    text: &mut String,
) -> Result<(), AllocError> {
    if count == 0 {
        return Ok(());
    }
    let plan = net.plan();
    let port = Port::Switch(switch, link);
    let end = end_text(alloc, plan, port)?;
    let fate = format!(in alloc; ", which {end}")?;
    add_tokens(alloc, plan, count, "at output", port, fate.as_str(), text)
}

/// The line of the tokens of a packet at an input joins the text, and with them those of a header that the input reads
/// or wants an output for.
fn add_input(
    alloc: Global,
    net: &TracedNet,
    switch: usize,
    link: usize,
    run: Run,
    text: &mut String,
) -> Result<(), AllocError> {
    let (header, fate) = if run.is_cut {
        (0, ", behind another packet")
    } else {
        header_at(net, switch, link)
    };
    let count = run.tokens.saturating_add(header);
    if count == 0 && fate.is_empty() {
        return Ok(());
    }
    let port = Port::Switch(switch, link);
    add_tokens(alloc, net.plan(), count, "at input", port, fate, text)
}

/// How many tokens of a header an input holds beside its buffer, and what it does with the packet that it is at.
fn header_at(net: &TracedNet, switch: usize, link: usize) -> (usize, &'static str) {
    let Some(view) = net.view_link(switch, link) else {
        return (0, "");
    };
    match &view.phase {
        Phase::Head(header) => (header.as_slice().len(), ", which reads its header"),
        Phase::Want(header, _) => {
            let held = header.as_slice().len();
            (held, ", which wants an output for its header")
        }
        Phase::Sinking => (0, ", which drops it"),
        Phase::Fresh | Phase::Stream(_) => (0, ""),
    }
}

/// The lines of the tokens of a packet that came in at a terminal join the text, and of those that have arrived.
fn add_inbox(
    alloc: Global,
    net: &TracedNet,
    terminal: usize,
    run: Run,
    text: &mut String,
) -> Result<(), AllocError> {
    let plan = net.plan();
    let port = Port::Terminal(terminal);
    if run.tokens > 0 {
        let fate = if run.tokens == 1 {
            " and waits to arrive"
        } else {
            " and wait to arrive"
        };
        add_tokens(alloc, plan, run.tokens, "came in at", port, fate, text)?;
    }
    if run.is_cut {
        return Ok(());
    }
    let arrived = unfinished_tokens(alloc, net, terminal)?;
    if arrived > 0 {
        add_tokens(alloc, plan, arrived, "arrived at", port, "", text)?;
    }
    Ok(())
}

/// That a packet has arrived, or that its end isn't in the network.
fn arrival_text(alloc: Global, net: &TracedNet, packet: Origin) -> Result<String, AllocError> {
    match find_arrival(alloc, net, packet)? {
        Some(terminal) => {
            let name = net.plan().port_text(alloc, Port::Terminal(terminal))?;
            format!(in alloc; "{ARRIVED}{name}")
        }
        None => format!(in alloc; "{GONE}"),
    }
}

/// The terminal where a packet's end has arrived. The only error is out of memory.
fn find_arrival(
    alloc: Global,
    net: &TracedNet,
    packet: Origin,
) -> Result<Option<usize>, AllocError> {
    let Ok(lists) = net.origins(alloc) else {
        return Err(AllocError);
    };
    let mut place = None;
    for (terminal, list) in lists.as_slice().iter().enumerate() {
        if list.as_slice().iter().any(|origin| *origin == packet) {
            place = Some(terminal);
        }
    }
    Ok(place)
}
