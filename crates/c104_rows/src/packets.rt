//! What is counted of packets, and the packets of a terminal.
//!
//! A packet is counted before it is sent, when there may be no memory for its row, and taken back where it isn't sent.
ghost use Rattle.std.specs.Prelude.{OnErr, OnOk, [], ◌++◌, ◌∷◌, ◌≡◌};
ghost use Rattle.c104_rows.specs.{Links.first_of, Packets.{all_but_last, arrived_packet, change_at, crossed_packet, inside_packet}};
ghost use Rattle.c104_rows.specs.Packets.{latency, left_packet, sent_packet};

use crate::numbers::add_saturating;
use c104_token::NoMemory;
use std::alloc::Global;
use std::marker::Model;

/// Where a packet arrived.
#[derive(Clone, Copy)]
pub struct Arrival {
    /// The terminal.
    pub terminal: u32,
    /// The round in which its terminator arrived.
    pub round: u32,
}

/// What is counted of a packet.
#[derive(Clone, Copy)]
pub struct PacketRow {
    /// Its bytes, of which the header is a part.
    pub bytes: u32,
    /// The round in which it was sent.
    pub sent: u32,
    /// The round in which its first token left its sender, if one did.
    pub left: Option<u32>,
    /// Where its terminator arrived, if it did.
    pub arrival: Option<Arrival>,
    /// How many wires its terminator has crossed.
    pub wires: u32,
    /// Over these wires, how many rounds it held one in which nothing of it crossed there.
    pub idle: u32,
    /// Whether its terminator is in the network, or waits at its sender. This is known at the end of a run alone.
    pub is_inside: bool,
}

impl PacketRow {
    /// A packet that is sent in this round.
    pub(crate) fn new(bytes: u32, round: u32) -> Self
        ensures { result ≡ sent_packet bytes round }
    {
        PacketRow {
            bytes,
            sent: round,
            left: None,
            arrival: None,
            wires: 0,
            idle: 0,
            is_inside: false,
        }
    }

    /// The packet of which a token leaves its sender in this round.
    fn left_in(self, round: u32) -> Self
        ensures { result ≡ left_packet round self }
    {
        PacketRow {
            left: Some(first_of(self.left, round)),
            ..self
        }
    }

    /// The packet whose terminator crosses one wire more.
    fn crossed(self, idle: u64) -> Self
        ensures { result ≡ crossed_packet idle self }
    {
        PacketRow {
            wires: self.wires.saturating_add(1),
            idle: add_saturating(self.idle, idle),
            ..self
        }
    }

    /// The packet whose terminator arrives.
    fn arrived(self, arrival: Arrival) -> Self
        ensures { result ≡ arrived_packet arrival self }
    {
        PacketRow {
            arrival: Some(arrival),
            ..self
        }
    }

    /// The packet whose terminator is in the network.
    fn found(self) -> Self
        ensures { result ≡ inside_packet self }
    {
        PacketRow {
            is_inside: true,
            ..self
        }
    }

    /// How many rounds the packet took to arrive, from the one in which it was sent.
    pub(crate) fn latency(self, arrival: Arrival) -> u32
        ensures { result ≡ latency self arrival }
    {
        arrival.round.saturating_sub(self.sent)
    }
}

/// The round of a packet's first token: one that left before, or one that leaves in this.
fn first_of(first: Option<u32>, round: u32) -> u32
    ensures { result ≡ first_of first round }
{
    match first {
        Some(first) => first,
        None => round,
    }
}

/// The packets that a terminal sent, by their numbers. Contracts see them as their list.
#[derive(Drop)]
pub struct Sender {
    packets: Vec<PacketRow>,
}

impl Model for Sender {
    ghost use Rattle.std.specs.Prelude.{List};
    ghost use Rattle.c104_rows.specs.declared.packets.PacketRow.{PacketRow as TheRow};

    ghost Value = { List TheRow };

    ghost view = { λ sender. sender.packets.items };
}

impl Sender {
    /// A terminal that has sent nothing.
    pub fn new(alloc: Global) -> Self
        ensures { result ≡ [] }
    {
        Sender {
            packets: Vec::new(alloc),
        }
    }

    /// The packets.
    pub fn packets(&self) -> &[PacketRow]
        ensures { result.now ≡ self.now }
    {
        self.packets.as_slice()
    }

    /// A packet joins those that were sent. The only error is out of memory.
    pub fn send(&mut self, packet: PacketRow) -> Result<(), NoMemory>
        ensures sent { OnOk result (self.new ≡ self.old ++ packet ∷ []) }
        ensures kept { OnErr result (self.new ≡ self.old) }
    {
        self.packets.push(packet)?;
        Ok(())
    }

    /// The packet that was sent last is taken back.
    pub fn take_back(&mut self)
        ensures { self.new ≡ all_but_last self.old }
    {
        let count = self.packets.len().saturating_sub(1);
        self.packets.truncate(count);
    }

    /// A token of a packet leaves in this round.
    pub fn leave(&mut self, number: usize, round: u32)
        ensures { self.new ≡ change_at self.old number (left_packet round) }
    {
        if let Some(packet) = self.packets.get_mut(number) {
            *packet = packet.left_in(round);
        }
    }

    /// The terminator of a packet crosses one wire more.
    pub fn cross(&mut self, number: usize, idle: u64)
        ensures { self.new ≡ change_at self.old number (crossed_packet idle) }
    {
        if let Some(packet) = self.packets.get_mut(number) {
            *packet = packet.crossed(idle);
        }
    }

    /// The terminator of a packet arrives.
    pub fn arrive(&mut self, number: usize, arrival: Arrival)
        ensures { self.new ≡ change_at self.old number (arrived_packet arrival) }
    {
        if let Some(packet) = self.packets.get_mut(number) {
            *packet = packet.arrived(arrival);
        }
    }

    /// The terminator of a packet was found in the network.
    pub fn find(&mut self, number: usize)
        ensures { self.new ≡ change_at self.old number inside_packet }
    {
        if let Some(packet) = self.packets.get_mut(number) {
            *packet = packet.found();
        }
    }
}
