//! What the registers of an input tell.
ghost use Rattle.std.specs.Prelude.{◌<◌};

use c104_net::TracedNet;

/// The offsets of the registers: the mode, and the counts of the packets that were dropped for their header and that
/// ended in it.
const MODE: u16 = 0x00;

const SUNK: u16 = 0x03;

const SHORT: u16 = 0x04;

/// The bit of the mode by which random headers are put before packets.
const RANDOM_BIT: u32 = 4;

/// Whether an input puts random headers before packets.
pub(crate) fn puts_random(net: &TracedNet, switch: usize, link: usize) -> bool
    requires { link < 32 }
{
    read(net, switch, link, MODE) / RANDOM_BIT % 2 == 1
}

/// How many packets an input has dropped for their header.
pub(crate) fn sunk_packets(net: &TracedNet, switch: usize, link: usize) -> usize
    requires { link < 32 }
{
    read(net, switch, link, SUNK) as usize
}

/// How many packets ended in their header at an input.
pub(crate) fn short_packets(net: &TracedNet, switch: usize, link: usize) -> usize
    requires { link < 32 }
{
    read(net, switch, link, SHORT) as usize
}

/// How many packets an input has dropped, for their header or ended in it.
pub(crate) fn dropped_packets(net: &TracedNet, switch: usize, link: usize) -> usize
    requires { link < 32 }
{
    sunk_packets(net, switch, link).saturating_add(short_packets(net, switch, link))
}

/// What the register of an input at this offset reads.
fn read(net: &TracedNet, switch: usize, link: usize, offset: u16) -> u32
    requires { link < 32 }
{
    let registers = 0x0100 * (link as u16 + 1);
    net.peek(switch, registers.saturating_add(offset))
        .unwrap_or(0)
}
