//! What a node by itself does.
//!
//! Memory for an act by itself is set aside beside the node (`SpareOf`), in lists that take the place of its own when
//! these are full: so `act` after `room` can't fail. A network doesn't use it: its acts may run out of memory before
//! anything has changed.
ghost use Rattle.std.specs.Prelude.{None, OnOk, Some, is_some, length, true, ◌<◌, ◌≡◌, ◌≤◌};
ghost use Rattle.c104_node.specs.{ActLinks.on_links, Acts.IsWithinLimits, Records.{HasRoomFor, after_act, fault_first, has_link, is_full}};
ghost use Rattle.{c104_node.specs.Records.{recorded_limit, recorded_step}, c104_switch.specs.Actions.is_ready};
ghost use Rattle.c104_token.specs.declared.text.TheConstants.{MAX_PACKET_BYTES};
ghost use Rattle.c104_node.specs.declared.acts.ActOf.TheVariants as act;

use super::{Node, has_link};
use crate::acts::{Act, ActOf, Entry, same_reply};
use c104_event::EventFault;
use c104_switch::{ActionOf, LinkSet, Reply};
use c104_token::{NoMemory, Packet};

impl Node {
    /// Whether an act would be done, if no limit refuses it.
    pub fn ready(&self, act: &Act) -> bool
        ensures { result ≡ is_some (recorded_step self.now.0 act.now) }
    {
        goes_over(self.wired, act) && self.core.ready(0, act)
    }

    /// Why an act that is ready can't be done now: OutboxFull, InboxFull or TraceFull.
    pub fn limit(&self, act: &Act) -> Option<EventFault>
        requires { IsWithinLimits act.now }
        ensures { result ≡ recorded_limit self.now.0 act.now }
    {
        if let Some(fault) = self.core.limit(act) {
            return Some(fault);
        }
        self.full_fault()
    }

    /// Whether the node would send a packet, if no limit refuses it.
    pub fn sends(&self, packet: &Packet) -> bool
        ensures { result ≡ is_some (recorded_step self.now.0 (act.Send packet.now)) }
    {
        !self.is_switch()
    }

    /// Why the node can't send a packet now: OutboxFull or TraceFull.
    pub fn send_limit(&self, packet: &Packet) -> Option<EventFault>
        requires { length packet.now.bytes ≤ MAX_PACKET_BYTES }
        ensures { result ≡ recorded_limit self.now.0 (act.Send packet.now) }
    {
        if let Some(fault) = self.core.send_limit(packet) {
            return Some(fault);
        }
        self.full_fault()
    }

    /// That no further entry may be kept, if so.
    fn full_fault(&self) -> Option<EventFault>
        ensures { result ≡ fault_first None (is_full self.now.0) }
    {
        if self.is_full() {
            Some(EventFault::TraceFull)
        } else {
            None
        }
    }

    /// Makes room for an act, so that the act takes no memory. The only error is out of memory.
    pub fn room(&mut self, act: &Act) -> Result<(), NoMemory>
        ensures same { self.new.0 ≡ self.old.0 }
        ensures room { OnOk result (HasRoomFor self.new.1 self.new.0.state act.now) }
    {
        self.trace.reserve(1)?;
        self.core.room_for(act, &mut self.spare)
    }

    /// Makes room for the entry of an act. The only error is out of memory.
    pub fn room_for_entry(&mut self) -> Result<(), NoMemory>
        ensures same { self.new.0 ≡ self.old.0 }
        ensures room { OnOk result (0 < self.new.1.entries) }
    {
        self.trace.reserve(1)?;
        Ok(())
    }

    /// Does an act that the node is ready for, that no limit refuses, and for which room was made.
    pub fn act(&mut self, ticket: u64, seat: Option<u8>, act: Act) -> Reply
        requires short { IsWithinLimits act }
        requires ready { is_some (recorded_step self.old.0 act) ≡ true }
        requires below { recorded_limit self.old.0 act ≡ None }
        requires room { HasRoomFor self.old.1 self.old.0.state act }
        ensures made { recorded_step self.old.0 act ≡ Some (result, self.new.0.state) }
        ensures done { is_ready result ≡ true }
        ensures node { self.new.0 ≡
            after_act self.old.0 (record { ticket = ticket; seat = seat }) act result self.new.0.state }
    {
        let reply = self.core.act_reserved(0, &act, &mut self.spare);
        let told = same_reply(&reply);
        self.trace.push_reserved(Entry {
            ticket,
            act,
            reply: told,
            seat,
        });
        reply
    }
}

/// Whether an act goes over no link, or over one of a set.
fn goes_over(wired: LinkSet, act: &Act) -> bool
    ensures { result ≡ on_links (has_link wired) act.now }
{
    match act {
        ActOf::Step(action) => match action {
            ActionOf::Enter(link, _) => has_link(wired, *link),
            ActionOf::Leave(link) => has_link(wired, *link),
            ActionOf::CreditOut(link) => has_link(wired, *link),
            ActionOf::CreditIn(link) => has_link(wired, *link),
            _ => true,
        },
        ActOf::Leave | ActOf::Enter(_) | ActOf::CreditOut | ActOf::CreditIn => has_link(wired, 0),
        _ => true,
    }
}
