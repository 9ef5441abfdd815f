//! The calls of seats that are altered.
use crate::alterations::Alteration;
use c104_audit::{AuditFault, Call, Lists, copy_calls};
use c104_switch::Reply;
use c104_token::Items;
use std::alloc::Global;

/// The calls of each of two seats, altered at a call of one of them. None where they can't be altered so there.
pub fn calls_with(
    alloc: Global,
    lists: &Lists,
    alteration: Alteration,
    seat: usize,
    at: usize,
) -> Option<Vec<Items<Call>>> {
    let [first, second] = lists.calls.as_slice() else {
        return None;
    };
    if seat == 0 {
        let (own, other) = altered_pair(
            alloc,
            alteration,
            first.as_slice(),
            second.as_slice(),
            at,
        )?;
        pair(alloc, own, other)
    } else {
        let (own, other) = altered_pair(
            alloc,
            alteration,
            second.as_slice(),
            first.as_slice(),
            at,
        )?;
        pair(alloc, other, own)
    }
}

/// The fault that is told where the calls of a seat are altered so.
pub fn calls_fault(alteration: Alteration, seat: usize) -> Option<AuditFault> {
    match alteration {
        Alteration::CallRemoved
        | Alteration::CallRepeated
        | Alteration::CallsExchanged
        | Alteration::CallReply => Some(AuditFault::Calls(seat)),
        Alteration::CallMoved => Some(AuditFault::Calls(0)),
        _ => None,
    }
}

fn pair(alloc: Global, first: Vec<Call>, second: Vec<Call>) -> Option<Vec<Items<Call>>> {
    let mut calls = Vec::with_capacity(alloc, 2).ok()?;
    calls.push_reserved(Items::new(first));
    calls.push_reserved(Items::new(second));
    Some(calls)
}

/// The calls of a seat and those of the other, altered at a call of the one.
fn altered_pair(
    alloc: Global,
    alteration: Alteration,
    own: &[Call],
    other: &[Call],
    at: usize,
) -> Option<(Vec<Call>, Vec<Call>)> {
    let mut own = copy_calls(alloc, own).ok()?;
    let mut other = copy_calls(alloc, other).ok()?;
    if at >= own.len() {
        return None;
    }
    let is_altered = match alteration {
        Alteration::CallRemoved => is_moved(&mut own, at, None),
        Alteration::CallMoved => is_moved(&mut own, at, Some(&mut other)),
        Alteration::CallRepeated => is_repeated(alloc, &mut own, at),
        Alteration::CallsExchanged => is_exchanged(&mut own, at),
        Alteration::CallReply => has_other_reply(&mut own, at),
        _ => false,
    };
    if is_altered { Some((own, other)) } else { None }
}

/// A call leaves a list, and joins the end of another.
fn is_moved(own: &mut Vec<Call>, at: usize, other: Option<&mut Vec<Call>>) -> bool {
    if at >= own.len() {
        return false;
    }
    let call = own.remove(at);
    match other {
        Some(other) => other.push(call).is_ok(),
        None => true,
    }
}

fn is_repeated(alloc: Global, own: &mut Vec<Call>, at: usize) -> bool {
    let Some(call) = own.get(at) else {
        return false;
    };
    match copy_calls(alloc, std::slice::from_ref(call)) {
        Ok(mut copies) => match copies.pop() {
            Some(copy) => own.insert(at, copy).is_ok(),
            None => false,
        },
        Err(_) => false,
    }
}

fn is_exchanged(own: &mut Vec<Call>, at: usize) -> bool {
    let next = at.saturating_add(1);
    if next >= own.len() {
        return false;
    }
    own.as_mut_slice().swap(at, next);
    true
}

fn has_other_reply(own: &mut Vec<Call>, at: usize) -> bool {
    if at >= own.len() {
        return false;
    }
    own[at].reply = Reply::NotReady;
    true
}
