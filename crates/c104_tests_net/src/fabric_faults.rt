//! Fabrics and their events that are refused, and events on nodes that are lent.
ghost use Rattle.std.specs.Prelude.{◌≡◌};
ghost use Rattle.c104_workers.specs.Fabrics.{handed_of};

use crate::calls::{placed_network, take_apart};
use crate::fabrics::{PLAN, audit_fault, ready_plan, seated};
use c104_control::ControlBytes;
use c104_event::{Event, EventFault};
use c104_node::Node;
use c104_switch::Reply;
use c104_token::{Items, Mark, Packet};
use c104_workers::{AuditFault, Fabric, FabricFault, Naming, Ready, Seat};
use std::alloc::Global;
use std::marker::Brand;
use std::sync::Wait;
use std::test::Fail;

/// A fabric has 1 to 64 seats: else the network comes back.
#[test]
fn seat_counts(rt: HostRuntime) -> Result<(), Fail> {
    let none = is_refused(rt.alloc(), 0)?;
    let many = is_refused(rt.alloc(), 65)?;
    assert!(rt; none && many);
    Ok(())
}

fn is_refused(alloc: Global, seats: usize) -> Result<bool, Fail> {
    let net = placed_network(alloc, PLAN)?;
    match Ready::new(alloc, net, seats) {
        Ok(ready) => {
            end::<Brand>(alloc, ready)?;
            Ok(false)
        }
        Err((net, fault)) => {
            let whole = net.quiet();
            net.retire();
            Ok(whole && fault == FabricFault::SeatCount)
        }
    }
}

/// A fabric is made, and ends.
fn end<N: Naming>(alloc: Global, ready: Ready) -> Result<(), Fail>
    requires { (ready.word_id ≡ N.word) × (handed_of ready.net ≡ N.handed) }
{
    let (fabric, seats) = seated::<N>(alloc, ready)?;
    fabric.close(seats).retire();
    Ok(())
}

/// Events that can't happen are told so, and the seat has no call of them.
#[test]
fn impossible_events(rt: HostRuntime) -> Result<(), Fail> {
    let packet = packet_of_length(rt.alloc(), 1)?;
    let long = packet_of_length(rt.alloc(), 4097)?;
    let ready = ready_plan(rt.alloc(), 1)?;
    let told = are_refused::<Brand, _>(&rt, rt.alloc(), ready, (packet, long))?;
    assert!(rt; told);
    Ok(())
}

fn packet_of_length(alloc: Global, length: usize) -> Result<Packet, Fail> {
    Ok(Packet {
        bytes: Items::new(vec![in alloc; 0x55; length]?),
        mark: Mark::Eop,
    })
}

/// Whether events with these packets are refused through the first seat of a fabric.
fn are_refused<N: Naming, R: Wait>(
    rt: &R,
    alloc: Global,
    ready: Ready,
    packets: (Packet, Packet),
) -> Result<bool, Fail>
    requires { (ready.word_id ≡ N.word) × (handed_of ready.net ≡ N.handed) }
{
    let (fabric, mut seats) = seated::<N>(alloc, ready)?;
    let Some(mut seat) = seats.pop() else {
        fabric.close(seats).retire();
        return Ok(false);
    };
    let told = are_impossible(rt, &fabric, &mut seat, packets);
    let mut seats = Vec::new(alloc);
    let _kept = seats.push(seat);
    fabric.close(seats).retire();
    Ok(told)
}

fn are_impossible<N: Naming, R: Wait>(
    rt: &R,
    fabric: &Fabric<N>,
    seat: &mut Seat,
    packets: (Packet, Packet),
) -> bool
    requires { seat.old.0.word_id ≡ fabric.now.word_id }
    ensures { seat.new.0.word_id ≡ fabric.now.word_id }
{
    let (packet, long) = packets;
    let elsewhere = Event::Send {
        terminal: 9,
        packet,
    };
    let long = Event::Send {
        terminal: 0,
        packet: long,
    };
    fabric.apply(rt, seat, &elsewhere) == Err(EventFault::NoNode)
        && fabric.apply(rt, seat, &long) == Err(EventFault::TooLong)
        && seat.calls().is_empty()
}

/// Events on lent nodes of another network of the same plan: the audit finds that the fabric's own nodes did none of them.
#[test]
fn events_on_lent_nodes(rt: HostRuntime) -> Result<(), Fail> {
    let mut nodes = nodes_of(rt.alloc())?;
    let result = by_lent_nodes(rt.alloc(), &mut nodes);
    retire_all(nodes);
    assert!(rt; result?);
    Ok(())
}

/// The nodes of a network: the switch, and the terminals a and b.
fn nodes_of(alloc: Global) -> Result<Vec<Node>, Fail> {
    let net = placed_network(alloc, PLAN)?;
    let (_wires, nodes, _count) = take_apart(net).into_parts();
    Ok(nodes)
}

fn retire_all(mut nodes: Vec<Node>) {
    while let Some(node) = nodes.pop() {
        node.retire();
    }
    nodes.destroy_empty();
}

fn by_lent_nodes(alloc: Global, nodes: &mut Vec<Node>) -> Result<bool, Fail> {
    match nodes.as_mut_slice() {
        [switch, terminal, ..] => {
            let ready = ready_plan(alloc, 1)?;
            by_switch_and_terminal::<Brand>(alloc, ready, switch, terminal)
        }
        _ => Ok(false),
    }
}

fn by_switch_and_terminal<N: Naming>(
    alloc: Global,
    ready: Ready,
    switch: &mut Node,
    terminal: &mut Node,
) -> Result<bool, Fail>
    requires { (ready.word_id ≡ N.word) × (handed_of ready.net ≡ N.handed) }
{
    let (fabric, mut seats) = seated::<N>(alloc, ready)?;
    let Some(mut seat) = seats.pop() else {
        fabric.close(seats).retire();
        return Ok(false);
    };
    let told = are_told(&fabric, &mut seat, switch, terminal);
    let mut seats = Vec::new(alloc);
    let _kept = seats.push(seat);
    let gathered = fabric.close(seats);
    let fault = audit_fault(alloc, &gathered);
    gathered.retire();
    Ok(told && fault == Some(AuditFault::Calls(0)))
}

/// Nothing arrives at the terminal a, and the switch tells what it is.
fn are_told<N: Naming>(
    fabric: &Fabric<N>,
    seat: &mut Seat,
    switch: &mut Node,
    terminal: &mut Node,
) -> bool
    requires { seat.old.0.word_id ≡ fabric.now.word_id }
    ensures { seat.new.0.word_id ≡ fabric.now.word_id }
{
    let identity = ControlBytes::new(&[0x83, 4, 0xc1, 0, 0]);
    let question = Event::Control {
        switch: 0,
        bytes: ControlBytes::new(&[0x03]),
    };
    held(fabric, seat, &Event::Drain { terminal: 0 }, terminal) == Some(Ok(Reply::NotReady))
        && held(fabric, seat, &question, switch) == Some(Ok(Reply::Control(identity)))
        && switch.trace().len() == 1
        && terminal.trace().is_empty()
        && seat.calls().len() == 1
}

/// What an event on one lent node is answered. None if it can't happen, or not on one node.
fn held<N: Naming>(
    fabric: &Fabric<N>,
    seat: &mut Seat,
    event: &Event,
    node: &mut Node,
) -> Option<Result<Reply, EventFault>>
    requires { seat.old.0.word_id ≡ fabric.now.word_id }
    ensures { seat.new.0.word_id ≡ fabric.now.word_id }
{
    match fabric.place(event) {
        Ok((_, None)) => Some(fabric.apply_held(seat, event, node, None)),
        _ => None,
    }
}
