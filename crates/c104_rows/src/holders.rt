//! The packet that an input is at: by the first terminator of it or behind it, up to the terminal that sends it.
//!
//! Only terminators tell where they came from, and the packet that an input is at is the first to end there.
ghost use Rattle.std.specs.Prelude.{◌≡◌};
ghost use Rattle.{c104_node.specs.Tagged.tagged_origin, c104_rows.specs.Holders.{input_end, output_end, owner_trail, packet_at}};
ghost use Rattle.c104_rows.specs.Holders.{packet_out, sent_trail, trail_behind, trail_of, view_trail};
ghost use Rattle.{c104_run.specs.NetViews.network_link_view, c104_token.specs.{Kinds.plain_kind, Tokens.is_end}};

use crate::finding::ended_by;
use crate::senders::{Sending, sending_at};
use c104_check::SwitchPort;
use c104_net::{Origin, TaggedToken, TracedNet, WaitingTokens};
use c104_plan::Port;
use c104_token::{Token, TokenKind};

/// The most tokens that an input or an output holds.
pub(crate) const BUFFER_LIMIT: usize = 64;

/// The most inputs that a network has: 64 switches of 32 links.
pub(crate) const MOST_INPUTS: usize = 2_048;

// Contracts name these: their values are a part of what they say, so a change of one alone is refused.
const _: () = prove!(BUFFER_LIMIT == 64);

const _: () = prove!(MOST_INPUTS == 2_048);

/// Where a packet's end is.
#[derive(Clone, Copy, Debug)]
pub(crate) enum Trail {
    /// It is found, and the packet is this one.
    Found(Origin),
    /// It is nowhere in the network, as where a switch was reset.
    Lost,
    /// It is at this input, or behind it.
    On(SwitchPort),
}

/// The packet that an input is at, if its end is in the network.
pub(crate) fn packet_at(net: &TracedNet, input: SwitchPort) -> Option<Origin>
    ensures { result ≡ packet_at net.now input }
{
    let mut at = input;
    for _turn in 0..MOST_INPUTS {
        match trail_of(net, at) {
            Trail::Found(origin) => return Some(origin),
            Trail::Lost => return None,
            Trail::On(next) => at = next,
        }
    }
    None
}

/// The packet whose token goes out of a port next, or would, if its end is in the network.
pub(crate) fn packet_out(net: &TracedNet, port: Port) -> Option<Origin>
    ensures { result ≡ packet_out net.now port }
{
    match trail_behind(net, Some(port)) {
        Trail::Found(origin) => Some(origin),
        Trail::Lost => None,
        Trail::On(input) => packet_at(net, input),
    }
}

/// Where a packet's end is, from an input on.
fn trail_of(net: &TracedNet, input: SwitchPort) -> Trail
    ensures { result ≡ trail_of net.now input }
{
    let port = Port::Switch(input.switch, input.link);
    match input_end(net, port) {
        Some(origin) => Trail::Found(origin),
        None => trail_behind(net, net.plan().peer(port)),
    }
}

/// The same behind an input, by the port to which it is wired.
fn trail_behind(net: &TracedNet, port: Option<Port>) -> Trail
    ensures { result ≡ trail_behind net.now port }
{
    match port {
        None => Trail::Lost,
        Some(Port::Switch(switch, link)) => match output_end(net, switch, link) {
            Some(origin) => Trail::Found(origin),
            None => view_trail(net, switch, link),
        },
        Some(Port::Terminal(terminal)) => sent_trail(terminal, sending_at(net, terminal)),
    }
}

/// The packet that a terminal sends.
fn sent_trail(terminal: usize, sending: Option<Sending>) -> Trail
    ensures { result ≡ sent_trail terminal sending }
{
    match sending {
        Some(sending) => Trail::Found(Origin {
            terminal,
            number: sending.number,
        }),
        None => Trail::Lost,
    }
}

/// The input that streams to an output of a switch.
fn view_trail(net: &TracedNet, switch: usize, link: usize) -> Trail
    ensures { result ≡ view_trail switch (network_link_view plain_kind net.now.network switch link) }
{
    match net.view_link(switch, link) {
        Some(view) => owner_trail(switch, view.owner),
        None => Trail::Lost,
    }
}

/// The same by its number.
fn owner_trail(switch: usize, owner: Option<usize>) -> Trail
    ensures { result ≡ owner_trail switch owner }
{
    match owner {
        Some(link) => Trail::On(SwitchPort { switch, link }),
        None => Trail::Lost,
    }
}

/// The packet of the first terminator of what came in at a port.
fn input_end(net: &TracedNet, port: Port) -> Option<Origin>
    ensures { result ≡ input_end net.now port }
{
    for index in 0..BUFFER_LIMIT {
        let Some(token) = net.input_token(port, index) else {
            return None;
        };
        if let Some(origin) = ended_by(token) {
            return Some(origin);
        }
    }
    None
}

/// The same of what waits at an output of a switch.
fn output_end(net: &TracedNet, switch: usize, link: usize) -> Option<Origin>
    ensures { result ≡ output_end net.now switch link }
{
    for index in 0..BUFFER_LIMIT {
        let Some(token) = net.output_token(switch, link, index) else {
            return None;
        };
        if let Some(origin) = ended_by(token) {
            return Some(origin);
        }
    }
    None
}
