//! What moves tokens on that wait somewhere, or else what holds them there.

use crate::reasons::{portless_text, reason_text};
use c104_event::Event;
use c104_net::{Reason, TracedNet};
use c104_plan::Port;
use c104_switch::{LINKS, Unready};
use std::alloc::{AllocError, Global};

/// What moves on tokens that wait at an output, or to go out of a terminal: `cross`, where there is credit or a round
/// grants some; or else what holds them.
pub(crate) fn after_output(
    alloc: Global,
    net: &TracedNet,
    port: Port,
    count: usize,
) -> Result<String, AllocError> {
    let Some(other) = net.plan().peer(port) else {
        return format!(in alloc; "no wire leads on from there");
    };
    match net.why(&Event::Cross(port)) {
        None => moved_text(alloc, "`cross`", count),
        Some(
            Reason {
                unready: Unready::NoCredit,
                ..
            },
        ) => after_credit(alloc, net, other, count),
        Some(reason) => held_text(alloc, net, port, reason),
    }
}

/// The same where there is no credit, which this port grants.
fn after_credit(
    alloc: Global,
    net: &TracedNet,
    port: Port,
    count: usize,
) -> Result<String, AllocError> {
    match net.why(&Event::Credit(port)) {
        None => moved_text(alloc, "`credit` and `cross`", count),
        Some(reason) => reason_text(alloc, net.plan(), reason),
    }
}

/// What moves on tokens that wait at an input whose packet wants no output, or else what holds them.
pub(crate) fn after_input(
    alloc: Global,
    net: &TracedNet,
    switch: usize,
    link: usize,
    count: usize,
) -> Result<String, AllocError> {
    let event = Event::Input {
        switch,
        link,
        word: 0,
    };
    match net.why(&event) {
        None => moved_text(alloc, "`input`", count),
        Some(
            Reason {
                unready: Unready::OutputFull(output),
                ..
            },
        ) => {
            let output = net.plan().port_text(alloc, Port::Switch(switch, output))?;
            format!(in alloc; "output {output} is full")
        }
        Some(reason) => held_text(alloc, net, Port::Switch(switch, link), reason),
    }
}

/// What moves on tokens that wait at an input behind a header that wants an output, or else what holds them: why the
/// first output that it wants can't be claimed.
pub(crate) fn after_header(
    alloc: Global,
    net: &TracedNet,
    switch: usize,
    input: usize,
    count: usize,
) -> Result<String, AllocError> {
    let mut held = None;
    for output in 0..LINKS {
        let claim = Event::Claim {
            switch,
            input,
            output,
        };
        match net.why(&claim) {
            None => return moved_text(alloc, "`claim`", count),
            Some(
                Reason {
                    unready: Unready::OutsideGroup(_),
                    ..
                },
            ) => {}
            Some(reason) => held = held.or(Some(reason)),
        }
    }
    match held {
        Some(reason) => held_text(alloc, net, Port::Switch(switch, input), reason),
        None => after_input(alloc, net, switch, input, count),
    }
}

/// That these events move `count` tokens on.
fn moved_text(alloc: Global, events: &str, count: usize) -> Result<String, AllocError> {
    let them = if count == 1 { "it" } else { "them" };
    format!(in alloc; "{events} or more `rounds` move {them} on")
}

/// The reason that holds tokens at a port: without its name where the reason is about it.
fn held_text(
    alloc: Global,
    net: &TracedNet,
    here: Port,
    reason: Reason,
) -> Result<String, AllocError> {
    if reason.port.is_same(here) {
        portless_text(alloc, net.plan(), reason)
    } else {
        reason_text(alloc, net.plan(), reason)
    }
}
