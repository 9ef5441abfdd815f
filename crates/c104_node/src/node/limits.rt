//! The limits of a terminal's lists, and the memory that they grow by, set aside before an act.
ghost use Rattle.std.specs.Prelude.{None, OnOk, Some, length, ◌≡◌, ◌≤◌};
ghost use Rattle.c104_node.specs.{Acts.IsWithinLimits, Nodes.arrived_tokens, PortActs.act_limit, SpareRooms.IsEnough};
ghost use Rattle.c104_token.specs.declared.text.TheConstants.{MAX_PACKET_BYTES};
ghost use Rattle.c104_node.specs.declared.acts.ActOf.TheVariants as act;

use crate::acts::ActOf;
use crate::node::NodeOf;
use crate::terminal::SpareOf;
use c104_event::EventFault;
use c104_token::{NoMemory, Packet, TokenKind};

/// The most tokens that may wait at a terminal.
const OUTBOX_LIMIT: usize = 65_536;

/// The most tokens that may arrive at a terminal.
const INBOX_LIMIT: usize = 262_144;

impl<T: TokenKind> NodeOf<T> {
    /// Why an act that is ready can't be done now: a terminal's list would pass its limit.
    #[inline(always)]
    pub fn limit(&self, act: &ActOf<T>) -> Option<EventFault>
        requires { IsWithinLimits act.now }
        ensures { result ≡ act_limit (Some self.now) act.now }
    {
        match act {
            ActOf::Send(packet) => self.send_limit(packet.packet()),
            ActOf::Drain => {
                if self.arrived_count() >= INBOX_LIMIT {
                    Some(EventFault::InboxFull)
                } else {
                    None
                }
            }
            _ => None,
        }
    }

    /// Why a packet can't be sent now: the list of what waits to go out would pass its limit.
    #[inline(always)]
    pub fn send_limit(&self, packet: &Packet) -> Option<EventFault>
        requires { length packet.now.bytes ≤ MAX_PACKET_BYTES }
        ensures { result ≡ act_limit (Some self.now) (act.Send packet.now) }
    {
        let length = packet.bytes.as_bytes().len();
        let waiting = self.waiting().unwrap_or(0);
        if waiting > OUTBOX_LIMIT - (length + 1) {
            Some(EventFault::OutboxFull)
        } else {
            None
        }
    }

    /// How many tokens arrived; none at a switch.
    #[inline(always)]
    fn arrived_count(&self) -> usize
        ensures { result ≡ length (arrived_tokens self.now) }
    {
        match self {
            NodeOf::Switch(_) => 0,
            NodeOf::Terminal(terminal) => terminal.arrived().len(),
        }
    }

    /// Sets aside what memory an act wants. The only error is out of memory.
    pub fn room_for(&self, act: &ActOf<T>, spare: &mut SpareOf<T>) -> Result<(), NoMemory>
        ensures { OnOk result (IsEnough T.kind spare.new self.now act.now) }
    {
        match self {
            NodeOf::Switch(_) => Ok(()),
            NodeOf::Terminal(terminal) => match act {
                ActOf::Send(packet) => terminal.room_for_send(packet.packet(), spare),
                ActOf::Drain => terminal.room_for_drain(spare),
                _ => Ok(()),
            },
        }
    }
}
