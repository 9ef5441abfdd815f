//! Memory that is set aside for a terminal: lists that may take the place of its own, so that it grows without memory.
ghost use Rattle.std.specs.{Prelude.{IfOk, None, OnOk, Some, [], length, vec_len, ◌++◌, ◌+◌, ◌<◌, ◌∷◌, ◌≡◌, ◌≤◌}, Vec.vec_capacity};
ghost use Rattle.{c104_link.specs.Steps.option_outcome, c104_node.specs.{Arrivals.others_in, PortActs.outbox_limit}};
ghost use Rattle.{c104_node.specs.Terminals.{terminal_drain, terminal_send}, c104_token.specs.declared.packets.Packet.Packet as ThePacket};

use super::arrived::OtherOf;
use super::{TerminalOf, TerminalPacket};
use c104_token::{NoMemory, Packet, TokenKind};
use std::alloc::Global;
use std::marker::Model;
use std::mem;

/// Memory that is set aside for a terminal's next act: a copy of the packet that it sends, and empty lists, each of
/// which can take the place of one of the terminal's that is full.
#[derive(Drop)]
pub struct SpareOf<T: TokenKind> {
    copy: Option<Packet>,
    sent: Vec<TerminalPacket>,
    bytes: Vec<u8>,
    others: Vec<OtherOf<T>>,
}

impl<T: TokenKind> Model for SpareOf<T> {
    ghost use Rattle.std.specs.{Prelude.{[], ◌≡◌}, Vec.vec_capacity};
    ghost use Rattle.c104_node.specs.SpareRooms.{SpareRoom};

    ghost Value = { SpareRoom };

    ghost view = { λ s. record {
      copy = s.copy;
      sent = vec_capacity s.sent;
      arrived = vec_capacity s.bytes;
      others = vec_capacity s.others;
    } };

    ghost invariant = { λ s. (s.sent.items ≡ []) × (s.bytes.items ≡ []) × (s.others.items ≡ []) };
}

impl<T: TokenKind> SpareOf<T> {
    /// Nothing is set aside.
    pub fn new(alloc: Global) -> Self
        ensures { result ≡ record { copy = None; sent = 0; arrived = 0; others = 0 } }
    {
        SpareOf {
            copy: None,
            sent: Vec::new(alloc),
            bytes: Vec::new(alloc),
            others: Vec::new(alloc),
        }
    }
}

impl<T: TokenKind> TerminalOf<T> {
    /// Sets memory aside for sending a packet. The only error is out of memory.
    pub fn room_for_send(&self, packet: &Packet, spare: &mut SpareOf<T>) -> Result<(), NoMemory>
        ensures copy { OnOk result (spare.new.copy ≡ Some packet.now) }
        ensures sent { OnOk result (length self.now.sent < spare.new.sent) }
    {
        let copy = packet.clone()?;
        spare.sent.reserve(self.sent.len() + 1)?;
        spare.copy = Some(copy);
        Ok(())
    }

    /// Sets memory aside for one more token that arrives. The only error is out of memory.
    pub fn room_for_drain(&self, spare: &mut SpareOf<T>) -> Result<(), NoMemory>
        ensures arrived { OnOk result (length self.now.arrived < spare.new.arrived) }
        ensures others { OnOk result (others_in T.kind self.now.arrived < spare.new.others) }
    {
        let arrived = one_more(self.arrived.len())?;
        let others = one_more(self.arrived.other_count())?;
        spare.bytes.reserve(arrived)?;
        spare.others.reserve(others)?;
        Ok(())
    }

    /// Sends the packet that was set aside, as `send` does, but without memory: where the list of what was sent is
    /// full, the spare one takes its place.
    pub fn send_reserved(&mut self, terminal: usize, spare: &mut SpareOf<T>)
        requires copy { (packet : ThePacket) × (spare.old.copy ≡ Some packet)
            × (length self.old.output.items + (length packet.bytes + 1) ≤ outbox_limit) }
        requires sent { length self.old.sent < spare.old.sent }
        ensures { (packet : ThePacket) → spare.old.copy ≡ Some packet →
            self.new ≡ terminal_send T.kind terminal packet self.old }
    {
        let Some(packet) = spare.copy.take() else {
            unreachable!();
        };
        self.post(terminal, packet, &mut spare.sent);
    }

    /// The first token that came in arrives, as in `drain`, but without memory: where a list of what arrived is full, the
    /// spare one takes its place. None where none came in.
    pub fn drain_reserved(&mut self, spare: &mut SpareOf<T>) -> Option<T>
        requires arrived { length self.old.arrived < spare.old.arrived }
        requires others { others_in T.kind self.old.arrived < spare.old.others }
        ensures { (result, self.new) ≡ option_outcome (terminal_drain self.old) self.old }
    {
        let token = self.input.take()?;
        self.arrived
            .push_into(token, &mut spare.bytes, &mut spare.others);
        Some(token)
    }

    /// Sends a packet without memory. Where the list of what was sent is full, another one takes its place.
    fn post(&mut self, terminal: usize, packet: Packet, spare: &mut Vec<TerminalPacket>)
        requires below { length self.old.output.items + (length packet.bytes + 1) ≤ outbox_limit }
        requires empty { spare.old.items ≡ [] }
        requires room { length self.old.sent < vec_capacity spare.old }
        ensures sent { self.new ≡ terminal_send T.kind terminal packet self.old }
        ensures empty { spare.new.items ≡ [] }
    {
        let waiting = self.waiting + (packet.bytes.as_slice().len() + 1);
        let posted = TerminalPacket { packet, terminal };
        push_roomy(&mut self.sent, spare, posted);
        self.waiting = waiting;
    }
}

/// One more than a count. Out of memory where that is more than can be counted.
fn one_more(count: usize) -> Result<usize, NoMemory>
    ensures { IfOk result (λ more. more ≡ count + 1) }
{
    count.checked_add(1).ok_or(NoMemory)
}

/// A thing joins a list. Where the list is full, another that has room takes its place.
pub(super) fn push_roomy<X>(list: &mut Vec<X>, spare: &mut Vec<X>, thing: X)
    requires empty { spare.old.items ≡ [] }
    requires room { vec_len list.old < vec_capacity spare.old }
    ensures items { list.new.items ≡ list.old.items ++ thing ∷ [] }
    ensures empty { spare.new.items ≡ [] }
{
    if list.len() == list.capacity() {
        mem::swap(list, spare);
        move_back(list, spare);
    }
    list.push_reserved(thing);
}

/// The things of a list move into an empty one that has room for them.
fn move_back<X>(list: &mut Vec<X>, from: &mut Vec<X>)
    requires empty { list.old.items ≡ [] }
    requires room { vec_len from.old < vec_capacity list.old }
    ensures items { list.new.items ≡ from.old.items }
    ensures empty { from.new.items ≡ [] }
    ensures room { vec_len list.new < vec_capacity list.new }
{
    while let Some(thing) = from.pop() {
        list.push_reserved(thing);
    }
    list.reverse();
}
