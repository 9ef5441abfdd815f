//! What is told of a network in which nothing can move, though tokens are there.

use crate::leftovers::waiting;
use crate::registers::dropped_packets;
use crate::waiting::waiting_text;
use c104_mistakes::counted;
use c104_net::TracedNet;
use c104_switch::{LINKS, LinkView, Phase};
use c104_token::{NoMemory, Token};
use std::alloc::{AllocError, Global};

/// What is told of a network that stands still: how many tokens wait in it, and in how many packets, where it is known
/// how many were sent; and in a line for each, which output an input holds for its packet, which one wants for its header,
/// and which reads or drops a packet of which no more comes. None when out of memory.
pub fn standstill_message(alloc: Global, net: &TracedNet, sent: Option<usize>) -> Option<String> {
    standstill_text(alloc, net, sent).ok()
}

/// The same.
fn standstill_text(
    alloc: Global,
    net: &TracedNet,
    sent: Option<usize>,
) -> Result<String, AllocError> {
    let tokens = waiting_tokens(net);
    let wait = waiting(alloc, tokens)?;
    let mut text = format!(in alloc; "stands still: {wait}")?;
    if let Some(sent) = sent
        && tokens > 0
    {
        let packets = sent.saturating_sub(gone_packets(alloc, net)?);
        let packets = counted(alloc, packets, "packet")?;
        text.push_str(" in ")?;
        text.push_str(packets.as_str())?;
    }
    let waiting = waiting_text(alloc, net)?;
    if !waiting.is_empty() {
        text.push('\n')?;
        text.push_str(waiting.as_str())?;
    }
    Ok(text)
}

/// How many tokens were sent and haven't arrived, and with them those of random headers that inputs put before packets.
fn waiting_tokens(net: &TracedNet) -> usize {
    let mut tokens = 0usize;
    for switch in 0..net.plan().switches().len() {
        tokens = tokens.saturating_add(switch_tokens(net, switch));
    }
    for terminal in 0..net.plan().terminals().len() {
        tokens = tokens.saturating_add(terminal_tokens(net, terminal));
    }
    tokens
}

/// How many tokens a switch has.
fn switch_tokens(net: &TracedNet, switch: usize) -> usize {
    let mut tokens = 0usize;
    for link in 0..LINKS {
        if let Some(view) = net.view_link(switch, link) {
            tokens = tokens.saturating_add(link_tokens(&view));
        }
    }
    tokens
}

/// How many tokens a link has: those in its buffers, and those of a header that its input reads or wants an output for.
fn link_tokens(view: &LinkView) -> usize {
    input_tokens(view).saturating_add(view.output_level)
}

/// How many tokens an input has: those in its buffer, and those of a header that it reads or wants an output for.
pub(crate) fn input_tokens(view: &LinkView) -> usize {
    let header = match &view.phase {
        Phase::Head(header) => header.as_slice().len(),
        Phase::Want(header, _) => header.as_slice().len(),
        Phase::Fresh | Phase::Stream(_) | Phase::Sinking => 0,
    };
    view.input_level.saturating_add(header)
}

/// How many tokens a terminal has to send, and how many came in there.
fn terminal_tokens(net: &TracedNet, terminal: usize) -> usize {
    match net.view_terminal(terminal) {
        Some(view) => view.waiting.saturating_add(view.undrained),
        None => 0,
    }
}

/// How many packets have arrived or were dropped. The only error is out of memory.
fn gone_packets(alloc: Global, net: &TracedNet) -> Result<usize, AllocError> {
    let mut gone = 0usize;
    for switch in 0..net.plan().switches().len() {
        for link in 0..LINKS {
            gone = gone.saturating_add(dropped_packets(net, switch, link));
        }
    }
    for terminal in 0..net.plan().terminals().len() {
        gone = gone.saturating_add(arrived_packets(alloc, net, terminal)?);
    }
    Ok(gone)
}

/// How many packets have arrived at a terminal, whole or cut off. The only error is out of memory.
fn arrived_packets(alloc: Global, net: &TracedNet, terminal: usize) -> Result<usize, AllocError> {
    match net.arrived(alloc, terminal) {
        Ok(Some(arrived)) => Ok(count_terminators(arrived.as_slice())),
        Ok(None) => Ok(0),
        Err(NoMemory) => Err(AllocError),
    }
}

/// How many packets end among these tokens.
fn count_terminators(tokens: &[Token]) -> usize {
    tokens
        .iter()
        .filter(|token| !matches!(token, Token::Byte(_)))
        .count()
}
