//! Traces of a run that are altered.
use crate::alterations::{Alteration, fault_at, wire_of};
use c104_audit::{AuditFault, Lists};
use c104_node::{Act, Entry, copy_entries};
use c104_switch::{ActionOf, Reply};
use c104_token::Token;
use std::alloc::Global;

/// Where a trace is altered.
#[derive(Clone, Copy)]
pub struct Place {
    pub node: usize,
    pub at: usize,
}

/// The trace of a node, altered at a place. None where it can't be altered so there.
pub fn trace_with(
    alloc: Global,
    lists: &Lists,
    alteration: Alteration,
    place: Place,
) -> Option<Vec<Entry>> {
    let trace = trace_of(lists, place.node)?;
    let mut entries = copy_entries(alloc, trace).ok()?;
    let is_altered = match alteration {
        Alteration::Removed => is_removed(&mut entries, place.at),
        Alteration::Repeated => is_repeated(alloc, &mut entries, place.at),
        Alteration::Exchanged => is_exchanged(&mut entries, place.at),
        Alteration::Ticket => has_other_ticket(&mut entries, place.at),
        Alteration::Seat => has_other_seat(&mut entries, place.at),
        Alteration::Token => has_other_token(&mut entries, place.at),
        Alteration::Reply => has_other_reply(&mut entries, place.at),
        _ => false,
    };
    if is_altered { Some(entries) } else { None }
}

fn trace_of(lists: &Lists, node: usize) -> Option<&[Entry]> {
    match lists.traces.as_slice().get(node) {
        Some(trace) => Some(trace.as_slice()),
        None => None,
    }
}

/// The fault that is told where a trace is altered so at a place.
pub fn trace_fault(lists: &Lists, alteration: Alteration, place: Place) -> Option<AuditFault> {
    let entry = trace_of(lists, place.node)?.get(place.at)?;
    match alteration {
        Alteration::Repeated | Alteration::Exchanged | Alteration::Ticket => {
            Some(AuditFault::Order(place.node))
        }
        // The list of the seat that it was has no such entry now, and that of the other has one more.
        Alteration::Seat => Some(AuditFault::Calls(0)),
        Alteration::Token => match wire_of(lists, place.node, entry) {
            Some(wire) => Some(AuditFault::Ends(wire)),
            None => None,
        },
        Alteration::Removed | Alteration::Reply => Some(fault_at(lists, place.node, entry)),
        _ => None,
    }
}

fn is_removed(entries: &mut Vec<Entry>, at: usize) -> bool {
    if at >= entries.len() {
        return false;
    }
    let _entry = entries.remove(at);
    true
}

fn is_repeated(alloc: Global, entries: &mut Vec<Entry>, at: usize) -> bool {
    let Some(entry) = entries.get(at) else {
        return false;
    };
    let copied = copy_entries(alloc, std::slice::from_ref(entry));
    match copied {
        Ok(mut copies) => match copies.pop() {
            Some(copy) => entries.insert(at, copy).is_ok(),
            None => false,
        },
        Err(_) => false,
    }
}

fn is_exchanged(entries: &mut Vec<Entry>, at: usize) -> bool {
    let next = at.saturating_add(1);
    if next >= entries.len() {
        return false;
    }
    entries.as_mut_slice().swap(at, next);
    true
}

fn has_other_ticket(entries: &mut Vec<Entry>, at: usize) -> bool {
    if at == 0 || at >= entries.len() {
        return false;
    }
    let ticket = entries[at - 1].ticket;
    entries[at].ticket = ticket;
    true
}

/// Of two seats the other, or the first where there was none.
fn has_other_seat(entries: &mut Vec<Entry>, at: usize) -> bool {
    if at >= entries.len() {
        return false;
    }
    entries[at].seat = match entries[at].seat {
        Some(0) => Some(1),
        _ => Some(0),
    };
    true
}

/// Another token in an entry that has one.
fn has_other_token(entries: &mut Vec<Entry>, at: usize) -> bool {
    if at >= entries.len() {
        return false;
    }
    let (act, reply) = match (&entries[at].act, &entries[at].reply) {
        (Act::Step(ActionOf::Enter(link, token)), _) => (
            Some(Act::Step(ActionOf::Enter(*link, other(*token)))),
            None,
        ),
        (Act::Enter(token), _) => (Some(Act::Enter(other(*token))), None),
        (Act::Leave | Act::Step(ActionOf::Leave(_)), Reply::Token(token)) => {
            (None, Some(Reply::Token(other(*token))))
        }
        _ => (None, None),
    };
    let is_altered = act.is_some() || reply.is_some();
    if let Some(act) = act {
        entries[at].act = act;
    }
    if let Some(reply) = reply {
        entries[at].reply = reply;
    }
    is_altered
}

/// Another token.
fn other(token: Token) -> Token {
    match token {
        Token::Byte(0x55) => Token::Byte(0x56),
        _ => Token::Byte(0x55),
    }
}

/// Another reply in an entry of a node alone.
fn has_other_reply(entries: &mut Vec<Entry>, at: usize) -> bool {
    if at >= entries.len() {
        return false;
    }
    match &entries[at].act {
        Act::Step(ActionOf::Input(_, _) | ActionOf::Claim(_, _) | ActionOf::Control(_)) => {}
        Act::Send(_) | Act::Drain => {}
        _ => return false,
    }
    entries[at].reply = Reply::NotReady;
    true
}
