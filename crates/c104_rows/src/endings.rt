//! What became of packets.
ghost use Rattle.std.specs.Prelude.{◌≡◌};
ghost use Rattle.c104_rows.specs.Endings.{ending_of};

use crate::packets::PacketRow;

/// What became of a packet.
#[derive(Clone, Copy)]
pub enum Ending {
    /// Its terminator arrived.
    Arrived,
    /// Its terminator is in the network, or waits at its sender.
    Unfinished,
    /// It is gone, and has fewer bytes than a header.
    Short,
    /// It is gone: an input dropped it, or a Reset cleared it.
    Sunk,
}

impl Ending {
    /// What became of a packet where headers have this many bytes.
    pub(crate) fn of(header: usize, packet: PacketRow) -> Self
        ensures { result ≡ ending_of header packet }
    {
        if packet.arrival.is_some() {
            return Ending::Arrived;
        }
        if packet.is_inside {
            return Ending::Unfinished;
        }
        if (packet.bytes as usize) < header {
            Ending::Short
        } else {
            Ending::Sunk
        }
    }
}
