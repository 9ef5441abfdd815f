//! One call on nodes: on those that were lent, and on the fabric's own.
//!
//! Both are prepared alike: whether the event is ready is looked at, then the limits, and then all memory is taken. The
//! ticket is drawn behind that, so that it is drawn only for what is sure to be done.
ghost use Rattle.std.specs.Prelude.{false, true, ◌≡◌};
ghost use Rattle.{c104_node.specs.Acts.IsWithinLimits, c104_token.specs.declared.tokens.Token.Token as TheToken};
ghost use Rattle.c104_workers.specs.{Held.{AsksNode, AsksPair}, LentCalls.{CallsNode, CallsPair, IsPrepared, IsPreparedPair, IsPreparedSend}};
ghost use Rattle.c104_node.specs.declared.acts.ActOf.TheVariants as act;

use crate::held::Held;
use crate::naming::Naming;
use crate::seats::Seat;
use c104_audit::copy_event;
use c104_event::{Event, EventFault};
use c104_node::{Act, ActOf, Joint, Node, SentPacket, ready_pair};
use c104_switch::{Reply, ReplyOf};
use c104_tickets::TicketWord;
use c104_token::Packet;
use std::marker::Brand;

/// A copy of an event, when all is ready for its act and no limit refuses it; None if the node isn't ready. There is room then
/// for the act and the call.
fn prepared(
    seat: &mut Seat,
    node: &mut Node,
    act: &Act,
    event: &Event,
) -> Result<Option<Event>, EventFault>
    requires short { IsWithinLimits act.now }
    ensures { IsPrepared seat.old.0 seat.new node.old.0 node.new event.now act.now result }
{
    if !node.ready(act) {
        return Ok(None);
    }
    if let Some(fault) = node.limit(act) {
        return Err(fault);
    }
    if seat.is_full() {
        return Err(EventFault::TraceFull);
    }
    let copy = copy_event(event)?;
    node.room(act)?;
    seat.room()?;
    Ok(Some(copy))
}

/// The same of a packet that is sent: with the act. The packet is copied only where it can be sent.
fn prepared_send(
    seat: &mut Seat,
    node: &mut Node,
    packet: &Packet,
    event: &Event,
) -> Result<Option<(Act, Event)>, EventFault>
    requires short { IsWithinLimits {A = TheToken} (act.Send packet.now) }
    ensures { IsPreparedSend seat.old.0 seat.new node.old.0 node.new event.now packet.now result }
{
    if !node.sends(packet) {
        return Ok(None);
    }
    if let Some(fault) = node.send_limit(packet) {
        return Err(fault);
    }
    if seat.is_full() {
        return Err(EventFault::TraceFull);
    }
    let copy = copy_event(event)?;
    let sent = SentPacket::copy_of(packet)?;
    let act = ActOf::Send(sent);
    node.room(&act)?;
    seat.room()?;
    Ok(Some((act, copy)))
}

/// The same of what crosses a wire between two nodes.
fn prepared_pair(
    seat: &mut Seat,
    near: &mut Node,
    far: &mut Node,
    joint: Joint,
    event: &Event,
) -> Result<Option<Event>, EventFault>
    ensures { IsPreparedPair seat.old.0 seat.new near.old.0 near.new far.old.0 far.new event.now joint result }
{
    if !ready_pair(near, far, joint) {
        return Ok(None);
    }
    if near.is_full() || far.is_full() || seat.is_full() {
        return Err(EventFault::TraceFull);
    }
    let copy = copy_event(event)?;
    near.room_for_entry()?;
    far.room_for_entry()?;
    seat.room()?;
    Ok(Some(copy))
}

/// A node that was lent does an act, if it is ready and no limit refuses it.
pub(crate) fn call_node(
    seat: &mut Seat,
    word: &TicketWord,
    node: &mut Node,
    act: Act,
    event: &Event,
) -> Result<Reply, EventFault>
    requires word { seat.old.0.word_id ≡ word.now.word_id }
    requires short { IsWithinLimits act }
    ensures { CallsNode true seat.old.0 seat.new.0 node.old.0 node.new.0 event.now act result }
{
    match prepared(seat, node, &act, event)? {
        None => Ok(ReplyOf::NotReady),
        Some(copy) => Ok(seat.act::<Brand>(word, node, act, copy)),
    }
}

/// It sends a packet.
pub(crate) fn call_send(
    seat: &mut Seat,
    word: &TicketWord,
    node: &mut Node,
    packet: &Packet,
    event: &Event,
) -> Result<Reply, EventFault>
    requires word { seat.old.0.word_id ≡ word.now.word_id }
    requires short { IsWithinLimits {A = TheToken} (act.Send packet.now) }
    ensures { CallsNode true seat.old.0 seat.new.0 node.old.0 node.new.0 event.now (act.Send packet.now) result }
{
    match prepared_send(seat, node, packet, event)? {
        None => Ok(ReplyOf::NotReady),
        Some((act, copy)) => Ok(seat.act::<Brand>(word, node, act, copy)),
    }
}

/// Something crosses a wire between two nodes that were lent, if both are ready and no limit refuses it.
pub(crate) fn call_pair(
    seat: &mut Seat,
    word: &TicketWord,
    near: &mut Node,
    far: &mut Node,
    joint: Joint,
    event: &Event,
) -> Result<Reply, EventFault>
    requires word { seat.old.0.word_id ≡ word.now.word_id }
    ensures { CallsPair true seat.old.0 seat.new.0 near.old.0 near.new.0 far.old.0 far.new.0 event.now joint result }
{
    match prepared_pair(seat, near, far, joint, event)? {
        None => Ok(ReplyOf::NotReady),
        Some(copy) => Ok(seat.act_pair::<Brand>(word, near, far, joint, copy)),
    }
}

/// One of the fabric's own nodes does an act, if it is ready and no limit refuses it.
pub(crate) fn call_held<N: Naming>(
    seat: &mut Seat,
    word: &TicketWord,
    held: &mut Held<N>,
    act: Act,
    event: &Event,
) -> Result<Reply, EventFault>
    requires word { (seat.old.0.word_id ≡ word.now.word_id) × (word.now.word_id ≡ N.word) }
    requires asked { AsksNode N.handed.plan event.now held.old.place act }
    requires short { IsWithinLimits act }
    ensures { CallsNode false seat.old.0 seat.new.0 held.old.node.0 held.new.node.0 event.now act result }
{
    match prepared(seat, &mut held.node, &act, event)? {
        None => Ok(ReplyOf::NotReady),
        Some(copy) => Ok(seat.act_held::<N, Brand>(word, held, act, copy)),
    }
}

/// It sends a packet.
pub(crate) fn call_held_send<N: Naming>(
    seat: &mut Seat,
    word: &TicketWord,
    held: &mut Held<N>,
    packet: &Packet,
    event: &Event,
) -> Result<Reply, EventFault>
    requires word { (seat.old.0.word_id ≡ word.now.word_id) × (word.now.word_id ≡ N.word) }
    requires asked { AsksNode N.handed.plan event.now held.old.place (act.Send packet.now) }
    requires short { IsWithinLimits {A = TheToken} (act.Send packet.now) }
    ensures { CallsNode false seat.old.0 seat.new.0 held.old.node.0 held.new.node.0 event.now (act.Send packet.now) result }
{
    match prepared_send(seat, &mut held.node, packet, event)? {
        None => Ok(ReplyOf::NotReady),
        Some((act, copy)) => Ok(seat.act_held::<N, Brand>(word, held, act, copy)),
    }
}

/// Something crosses a wire between two of the fabric's own nodes, if both are ready and no limit refuses it.
pub(crate) fn call_held_pair<N: Naming>(
    seat: &mut Seat,
    word: &TicketWord,
    near: &mut Held<N>,
    far: &mut Held<N>,
    joint: Joint,
    event: &Event,
) -> Result<Reply, EventFault>
    requires word { (seat.old.0.word_id ≡ word.now.word_id) × (word.now.word_id ≡ N.word) }
    requires asked { AsksPair N.handed.plan event.now joint near.old.place far.old.place }
    ensures { CallsPair false seat.old.0 seat.new.0 near.old.node.0 near.new.node.0 far.old.node.0 far.new.node.0
        event.now joint result }
{
    match prepared_pair(seat, &mut near.node, &mut far.node, joint, event)? {
        None => Ok(ReplyOf::NotReady),
        Some(copy) => Ok(seat.act_held_pair::<N, Brand>(word, near, far, joint, copy)),
    }
}
