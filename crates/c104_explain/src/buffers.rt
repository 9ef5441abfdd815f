//! The buffers of a network, and where in them the tokens of a packet stand.

use c104_net::{Origin, TaggedToken, TracedNet, WaitingTokens};
use c104_plan::Port;
use c104_switch::{LINKS, Phase};
use c104_token::{Token, TokenKind};

/// The most tokens that an input or an output holds.
pub(crate) const BUFFER_LIMIT: usize = 64;

/// A buffer of the network.
#[derive(Clone, Copy)]
pub(crate) enum Buffer {
    /// What came in at a port.
    Input(Port),
    /// The output of a switch's link.
    Output(usize, usize),
}

/// Tokens that stand behind the last end of a packet in a buffer.
#[derive(Clone, Copy)]
pub(crate) struct Run {
    pub(crate) tokens: usize,
    /// Whether an end of a packet stands before them.
    pub(crate) is_cut: bool,
}

/// The buffer in which a packet's end is, and where in it.
pub(crate) fn find_end(net: &TracedNet, packet: Origin) -> Option<(Buffer, usize)> {
    for switch in 0..net.plan().switches().len() {
        if let Some(found) = find_in_switch(net, switch, packet) {
            return Some(found);
        }
    }
    for terminal in 0..net.plan().terminals().len() {
        let buffer = Buffer::Input(Port::Terminal(terminal));
        if let Some(index) = end_in(net, buffer, packet) {
            return Some((buffer, index));
        }
    }
    None
}

/// The same in a switch.
fn find_in_switch(net: &TracedNet, switch: usize, packet: Origin) -> Option<(Buffer, usize)> {
    for link in 0..LINKS {
        let input = Buffer::Input(Port::Switch(switch, link));
        if let Some(index) = end_in(net, input, packet) {
            return Some((input, index));
        }
        let output = Buffer::Output(switch, link);
        if let Some(index) = end_in(net, output, packet) {
            return Some((output, index));
        }
    }
    None
}

/// Where in a buffer a packet's end is.
fn end_in(net: &TracedNet, buffer: Buffer, packet: Origin) -> Option<usize> {
    for index in 0..BUFFER_LIMIT {
        let token = token_at(net, buffer, index)?;
        let is_there = token.terminal() == packet.terminal && token.number() == packet.number;
        if is_end(&token) && is_there {
            return Some(index);
        }
    }
    None
}

/// The tokens behind the last end of a packet among the first `count` of a buffer.
pub(crate) fn last_run(net: &TracedNet, buffer: Buffer, count: usize) -> Run {
    let mut run = Run {
        tokens: 0,
        is_cut: false,
    };
    for index in 0..count {
        let Some(token) = token_at(net, buffer, index) else {
            return run;
        };
        if is_end(&token) {
            run = Run {
                tokens: 0,
                is_cut: true,
            };
        } else {
            run.tokens = run.tokens.saturating_add(1);
        }
    }
    run
}

/// Whether a token ends a packet.
fn is_end(token: &TaggedToken) -> bool {
    !matches!(token.plain(), Token::Byte(_))
}

/// The token at this index of a buffer.
fn token_at(net: &TracedNet, buffer: Buffer, index: usize) -> Option<TaggedToken> {
    match buffer {
        Buffer::Input(port) => net.input_token(port, index),
        Buffer::Output(switch, link) => net.output_token(switch, link, index),
    }
}

/// The buffer that the first packet of this one has gone on to.
pub(crate) fn buffer_after(net: &TracedNet, buffer: Buffer) -> Option<Buffer> {
    match buffer {
        Buffer::Output(switch, link) => {
            let other = net.plan().peer(Port::Switch(switch, link))?;
            Some(Buffer::Input(other))
        }
        Buffer::Input(Port::Switch(switch, link)) => match net.view_link(switch, link)?.phase {
            Phase::Stream(output) => Some(Buffer::Output(switch, output)),
            Phase::Fresh | Phase::Head(_) | Phase::Want(_, _) | Phase::Sinking => None,
        },
        Buffer::Input(Port::Terminal(_)) => None,
    }
}
