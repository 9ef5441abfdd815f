//! The calls by which tests make what they lend, with nothing promised: what contracts say would be facts of every
//! later goal of a test, and the prover would compute with literal texts.
use c104_control::ControlBytes;
use c104_describe::read_description;
use c104_event::{Event, Port};
use c104_label::image_of;
use c104_net::{Entry, Net, NetParts, RecordedNet, RecordedPlace, Run};
use c104_plan::{Image, Plan};
use c104_token::{Packet, Token, TokenKind, parse_packet};
use std::alloc::Global;

/// Two terminals on one switch, with a row to each.
pub const PLAN: &[u8] = b"switch A\nterminal a A.0\nterminal b A.1\n\
    row A.0 1 0\nrow A.0 2 1\nrow A.1 1 0\nrow A.1 2 1\n";

/// Switches 0 to 3 in two rows of two, each with a terminal.
pub const MESH: &[u8] = b"mesh 2 2 1\n";

/// The plan of a description.
pub fn plan_of(alloc: Global, text: &[u8]) -> Option<Plan> {
    read_description(alloc, text).ok()
}

/// The image of a plan's labels, or of its own lines.
pub fn label_image(alloc: Global, plan: &Plan) -> Option<Image> {
    image_of(alloc, plan).ok()
}

/// Drops a plan. Whoever owns one hands it over here, since it is expensive to prove that one may be dropped.
pub fn drop_plan(_plan: Plan) {}

/// Drops a run, for the same reason.
pub fn drop_run(_run: Run) {}

/// A network of a plan with an image's settings.
pub fn net_of(alloc: Global, plan: &Plan, image: &Image) -> Option<Net> {
    Net::placed(alloc, plan, image).ok()
}

/// The parts of a network.
pub fn take_apart(net: Net) -> NetParts {
    net.into_nodes()
}

/// Does events, whatever they are answered.
pub fn do_all<T: TokenKind, P: RecordedPlace<T>>(net: &mut RecordedNet<T, P>, events: &[Event]) {
    for event in events {
        let _answer = net.apply(event);
    }
}

/// How many events a network did, and how many entries its nodes have.
pub fn counts(net: &Net) -> (u64, usize) {
    let mut entries: usize = 0;
    for node in 0..node_count(net) {
        entries = entries.saturating_add(net.trace(node).map_or(0, |trace| trace.len()));
    }
    (net.count(), entries)
}

fn node_count(net: &Net) -> usize {
    net.plan().switches().len() + net.plan().terminals().len()
}

/// Whether two networks of one plan have done as many events, and each of their nodes has the same entries, by tickets,
/// seats and replies.
pub fn are_alike(one: &Net, other: &Net) -> bool {
    for node in 0..node_count(one) {
        let are_same = match (one.trace(node), other.trace(node)) {
            (Some(trace), Some(twin)) => are_same_entries(trace, twin),
            _ => false,
        };
        if !are_same {
            return false;
        }
    }
    one.count() == other.count()
}

fn are_same_entries(trace: &[Entry], twin: &[Entry]) -> bool {
    for (at, entry) in trace.iter().enumerate() {
        let is_same = match twin.get(at) {
            Some(other) => is_same_entry(entry, other),
            None => false,
        };
        if !is_same {
            return false;
        }
    }
    trace.len() == twin.len()
}

fn is_same_entry(one: &Entry, other: &Entry) -> bool {
    one.ticket == other.ticket && one.seat == other.seat && one.reply == other.reply
}

/// Whether the packet of the first run has come to the terminal b.
pub fn has_come(net: &Net) -> bool {
    let Some(arrived) = net.arrived(1) else {
        return false;
    };
    arrived.len() == 3
        && arrived.get(0) == Some(Token::Byte(1))
        && arrived.get(1) == Some(Token::Byte(0xaa))
        && arrived.get(2) == Some(Token::Eop)
}

/// The packet of the first run.
pub fn packet(alloc: Global) -> Option<Packet> {
    parse_packet(alloc, "01 aa eop").ok()
}

/// The events of the first run but the packet that is sent first, by the lines that ask for them.
fn later_events() -> [Event; 15] {
    let turn = |_: u8| Event::Input {
        switch: 0,
        link: 0,
        word: 0,
    };
    [
        Event::Credit(Port::Switch(0, 0)),
        Event::Cross(Port::Terminal(0)),
        Event::Cross(Port::Terminal(0)),
        Event::Cross(Port::Terminal(0)),
        turn(0),
        Event::Claim {
            switch: 0,
            input: 0,
            output: 1,
        },
        Event::Credit(Port::Terminal(1)),
        Event::Cross(Port::Switch(0, 1)),
        turn(1),
        turn(2),
        Event::Cross(Port::Switch(0, 1)),
        Event::Cross(Port::Switch(0, 1)),
        Event::Drain { terminal: 1 },
        Event::Drain { terminal: 1 },
        Event::Drain { terminal: 1 },
    ]
}

/// The events of the first run: a packet goes from the terminal a to b.
pub fn first_run(alloc: Global) -> Option<Vec<Event>> {
    let packet = packet(alloc)?;
    let mut events = Vec::new(alloc);
    let sent = Event::Send {
        terminal: 0,
        packet,
    };
    events.push(sent).ok()?;
    for event in later_events() {
        events.push(event).ok()?;
    }
    Some(events)
}

/// A control command to the first switch.
pub fn command(bytes: &[u8]) -> Option<Event> {
    if bytes.len() > 8 {
        return None;
    }
    Some(Event::Control {
        switch: 0,
        bytes: ControlBytes::new(bytes),
    })
}
