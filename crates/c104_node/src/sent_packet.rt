//! A packet that is sent, as an act names it.
ghost use Rattle.std.specs.Prelude.{◌≡◌, IfOk};

use c104_token::{Bytes, NoMemory, Packet};
use std::marker::Model;

/// A packet that a terminal sends.
// It lies behind a pointer, so that an entry of a trace is smaller.
#[derive(Drop)]
pub struct SentPacket {
    packet: Box<Packet>,
}

impl Model for SentPacket {
    ghost use Rattle.c104_token.specs.declared.packets.Packet.{Packet};

    ghost Value = { Packet };

    ghost view = { λ sent. sent.packet.value };
}

impl SentPacket {
    /// A copy of a packet. The only error is out of memory.
    pub fn copy_of(packet: &Packet) -> Result<Self, NoMemory>
        ensures { IfOk result (λ sent. sent ≡ packet.now) }
    {
        let bytes = packet.bytes.clone()?.into_vec();
        let alloc = *bytes.allocator();
        let copy = Packet {
            bytes: Bytes::new(bytes),
            mark: packet.mark,
        };
        let packet = Box::new(alloc, copy)?;
        Ok(SentPacket { packet })
    }

    /// The packet.
    pub fn packet(&self) -> &Packet
        ensures { result.now ≡ self.now }
    {
        &self.packet
    }
}
