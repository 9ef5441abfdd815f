//! What is told of an event that isn't ready.

use crate::reason_sentences::reason_sentence;
use c104_net::Reason;
use c104_plan::{Plan, Port};
use c104_switch::Unready;
use std::alloc::{AllocError, Global};

/// What is told of an event that isn't ready for this reason, by the names of the plan. None when out of memory.
pub fn reason_message(alloc: Global, plan: &Plan, reason: Reason) -> Option<String> {
    reason_text(alloc, plan, reason).ok()
}

/// The message: the port, a sentence, and the other port that the reason is about, if it is about one.
pub(crate) fn reason_text(
    alloc: Global,
    plan: &Plan,
    reason: Reason,
) -> Result<String, AllocError> {
    let text = portless_text(alloc, plan, reason)?;
    if matches!(reason.unready, Unready::Owned(_)) {
        return Ok(text);
    }
    let port = plan.port_text(alloc, reason.port)?;
    format!(in alloc; "{port}: {text}")
}

/// The same without the port, unless the sentence names it.
pub(crate) fn portless_text(
    alloc: Global,
    plan: &Plan,
    reason: Reason,
) -> Result<String, AllocError> {
    let Reason { port, unready } = reason;
    let sentence = reason_sentence(unready);
    let Some(other) = other_port(plan, port, unready) else {
        return format!(in alloc; "{sentence}");
    };
    let other = plan.port_text(alloc, other)?;
    if matches!(unready, Unready::Owned(_)) {
        let output = plan.port_text(alloc, port)?;
        return format!(in alloc;
            "output {output} belongs to {other}'s packet until its terminator passes"
        );
    }
    format!(in alloc; "{sentence}: {other}")
}

/// The other port that a reason is about: of credit the one that grants it, else a link that the reason names.
fn other_port(plan: &Plan, port: Port, unready: Unready) -> Option<Port> {
    match unready {
        Unready::NoCredit => plan.peer(port),
        Unready::WantsOutput(link)
        | Unready::OutputFull(link)
        | Unready::OutsideGroup(link)
        | Unready::Owned(link) => port_beside(port, link),
        Unready::NoLink
        | Unready::NotStarted
        | Unready::NoToken
        | Unready::NotGranted
        | Unready::NoRoom
        | Unready::CreditFull
        | Unready::WantsNothing
        | Unready::NoRoomForHeader => None,
    }
}

/// A link of the switch that has a port.
fn port_beside(port: Port, link: usize) -> Option<Port> {
    match port {
        Port::Switch(switch, _) => Some(Port::Switch(switch, link)),
        Port::Terminal(_) => None,
    }
}

/// The name of a port joins a text.
pub(crate) fn add_port(
    alloc: Global,
    plan: &Plan,
    port: Port,
    text: &mut String,
) -> Result<(), AllocError> {
    let name = plan.port_text(alloc, port)?;
    text.push_str(name.as_str())
}
