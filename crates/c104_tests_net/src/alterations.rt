//! What is altered in the lists of a run, and which fault the audit has to tell of it.
use c104_audit::{AuditFault, Lists};
use c104_event::Port;
use c104_node::{Act, Entry};
use c104_switch::ActionOf;

/// How lists are altered.
#[derive(Clone, Copy, PartialEq, Eq, Debug)]
pub enum Alteration {
    /// An entry is left out.
    Removed,
    /// An entry stands twice.
    Repeated,
    /// Two entries that follow one another are exchanged.
    Exchanged,
    /// An entry has the ticket of the one before it.
    Ticket,
    /// An entry is that of another seat, or of one where there was none.
    Seat,
    /// Another token comes in over a wire, or goes out.
    Token,
    /// An entry has another reply.
    Reply,
    /// A call is left out.
    CallRemoved,
    /// A call stands twice.
    CallRepeated,
    /// Two calls that follow one another are exchanged.
    CallsExchanged,
    /// A call is moved to the other seat.
    CallMoved,
    /// A call has another reply.
    CallReply,
    /// A node started otherwise.
    Start,
    /// A link is wired that isn't, or not wired that is.
    Wired,
}

/// All of them.
pub const ALTERATIONS: [Alteration; 14] = [
    Alteration::Removed,
    Alteration::Repeated,
    Alteration::Exchanged,
    Alteration::Ticket,
    Alteration::Seat,
    Alteration::Token,
    Alteration::Reply,
    Alteration::CallRemoved,
    Alteration::CallRepeated,
    Alteration::CallsExchanged,
    Alteration::CallMoved,
    Alteration::CallReply,
    Alteration::Start,
    Alteration::Wired,
];

/// The next of a row of numbers that look random.
pub fn next_number(seed: u64) -> u64 {
    seed.wrapping_mul(6_364_136_223_846_793_005)
        .wrapping_add(1_442_695_040_888_963_407)
}

/// A number below a count, by the upper half of a seed. 0 where the count is.
pub fn below(seed: u64, count: usize) -> usize {
    match (seed >> 33).checked_rem(count as u64) {
        Some(rest) => rest as usize,
        None => 0,
    }
}

/// The port at which an act of a node meets a wire, if it does.
fn port_of(switches: usize, node: usize, act: &Act) -> Option<Port> {
    match act {
        Act::Step(ActionOf::Enter(link, _)) => Some(Port::Switch(node, *link)),
        Act::Step(ActionOf::Leave(link)) => Some(Port::Switch(node, *link)),
        Act::Step(ActionOf::CreditOut(link)) => Some(Port::Switch(node, *link)),
        Act::Step(ActionOf::CreditIn(link)) => Some(Port::Switch(node, *link)),
        Act::Leave | Act::Enter(_) | Act::CreditOut | Act::CreditIn => {
            Some(Port::Terminal(node.checked_sub(switches)?))
        }
        _ => None,
    }
}

/// The number of a wire that ends at a port.
fn wire_at(lists: &Lists, port: Port) -> Option<usize> {
    for (number, wire) in lists.wires.as_slice().iter().enumerate() {
        if wire.here == port || wire.there == port {
            return Some(number);
        }
    }
    None
}

/// The wire at which an entry of a node is one end of an event.
pub fn wire_of(lists: &Lists, node: usize, entry: &Entry) -> Option<usize> {
    wire_at(lists, port_of(lists.switches, node, &entry.act)?)
}

/// What is told where an entry of a node isn't as it was: the two ends of its wire don't agree, or it isn't what its seat
/// called, or what the node had done before there were seats.
pub fn fault_at(lists: &Lists, node: usize, entry: &Entry) -> AuditFault {
    match (wire_of(lists, node, entry), entry.seat) {
        (Some(wire), _) => AuditFault::Ends(wire),
        (None, Some(seat)) => AuditFault::Calls(seat as usize),
        (None, None) => AuditFault::Before(node),
    }
}
