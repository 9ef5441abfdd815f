//! What can happen in a network, and where.

use c104_control::ControlBytes;
use c104_plan::Port;
use c104_token::Packet;

/// What can happen in a network.
#[derive(Debug, Drop)]
pub enum Event {
    /// The first token that waits at this port crosses its wire.
    Cross(Port),
    /// This port grants eight more tokens to the other end of its wire.
    Credit(Port),
    /// An input takes a turn with its first token. The word picks a random header, where the input
    /// puts one before its packets.
    Input {
        switch: usize,
        link: usize,
        word: u32,
    },
    /// An input claims an output of the group that it wants.
    Claim {
        switch: usize,
        input: usize,
        output: usize,
    },
    /// A control command comes to a switch, as these bytes.
    Control {
        switch: usize,
        bytes: ControlBytes,
    },
    /// A terminal sends a packet.
    Send {
        terminal: usize,
        packet: Packet,
    },
    /// The first token that came in at a terminal arrives.
    Drain {
        terminal: usize,
    },
}
