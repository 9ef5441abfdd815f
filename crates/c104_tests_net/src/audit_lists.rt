//! The audit of made lists: those of one run, and those with each fault.
use crate::made_lists::{Altered, made_lists};
use c104_audit::{AuditFault, audit_lists};
use c104_event::{Event, Port};
use std::alloc::Global;
use std::process::Abort;
use std::test::Fail;

/// The fault of the lists that are altered so, if they have one.
fn fault_of(alloc: Global, altered: &[Altered]) -> Result<Option<AuditFault>, Fail> {
    let lists = made_lists(alloc, altered)?;
    match audit_lists(alloc, &lists) {
        Ok(_events) => Ok(None),
        Err(fault) => Ok(Some(fault)),
    }
}

/// The lists that are altered so have this fault.
fn has_fault(
    rt: &impl Abort,
    alloc: Global,
    altered: &[Altered],
    due: AuditFault,
) -> Result<(), Fail> {
    let found = fault_of(alloc, altered)?;
    assert!(rt; found == Some(due));
    Ok(())
}

/// The events of the lists, unaltered.
fn events(alloc: Global) -> Result<Vec<Event>, Fail> {
    let lists = made_lists(alloc, &[])?;
    Ok(audit_lists(alloc, &lists)?)
}

/// The events are the five, in the order of their tickets.
fn are_the_five(events: &[Event]) -> bool {
    match events {
        [
            Event::Credit(Port::Switch(0, 0)),
            Event::Send { terminal: 0, .. },
            Event::Control { switch: 0, .. },
            Event::Cross(Port::Terminal(0)),
            Event::Credit(Port::Terminal(1)),
        ] => true,
        _ => false,
    }
}

#[test]
fn lists_of_one_run(rt: HostRuntime) -> Result<(), Fail> {
    let events = events(rt.alloc())?;
    assert!(rt; are_the_five(&events));
    Ok(())
}

#[test]
fn shapes_and_tickets(rt: HostRuntime) -> Result<(), Fail> {
    let rows = [
        (Altered::Buffers, AuditFault::Shape(0)),
        (Altered::Links, AuditFault::Shape(2)),
        (Altered::Ticket, AuditFault::Order(1)),
        (Altered::Token, AuditFault::Ends(0)),
    ];
    for (altered, due) in rows {
        has_fault(&rt, rt.alloc(), &[altered], due)?;
    }
    Ok(())
}

#[test]
fn calls_of_seats(rt: HostRuntime) -> Result<(), Fail> {
    let rows = [
        (Altered::Reply, AuditFault::Calls(1)),
        (Altered::FarSeat, AuditFault::Calls(0)),
        (Altered::Stray, AuditFault::Calls(7)),
        (Altered::Call, AuditFault::Calls(0)),
        (Altered::First, AuditFault::Calls(0)),
    ];
    for (altered, due) in rows {
        has_fault(&rt, rt.alloc(), &[altered], due)?;
    }
    Ok(())
}

#[test]
fn nodes_before(rt: HostRuntime) -> Result<(), Fail> {
    let rows = [
        (Altered::Before, AuditFault::Before(1)),
        (Altered::Start, AuditFault::Before(2)),
    ];
    for (altered, due) in rows {
        has_fault(&rt, rt.alloc(), &[altered], due)?;
    }
    Ok(())
}

/// Of two faults the one of the earlier clause is told, and of one clause the one of the lower number.
#[test]
fn first_of_two(rt: HostRuntime) -> Result<(), Fail> {
    let rows = [
        ([Altered::Start, Altered::Before], AuditFault::Before(1)),
        ([Altered::Links, Altered::Buffers], AuditFault::Shape(0)),
        ([Altered::Reply, Altered::FarSeat], AuditFault::Calls(0)),
        ([Altered::Stray, Altered::Reply], AuditFault::Calls(1)),
        ([Altered::Before, Altered::Stray], AuditFault::Calls(7)),
        ([Altered::Reply, Altered::Token], AuditFault::Ends(0)),
    ];
    for (altered, due) in rows {
        has_fault(&rt, rt.alloc(), &altered, due)?;
    }
    Ok(())
}
