//! One worker does the parts of all nodes of a network, through a port.

use crate::calls::{has_arrived, labelled_network, retire, send};
use c104_net::Net;
use c104_token::Token;
use c104_workers::{NetPort, Part, Words, Worker, do_turns};
use std::alloc::Global;
use std::process::Abort;
use std::test::Fail;

/// Three switches in a row, between the terminals a and c, which are 0 and 1.
const ROW: &[u8] = b"switch A\nswitch B\nswitch C\nterminal a A.0\nterminal c C.1\n\
    wire A.1 B.0\nwire B.1 C.0\nlabel tree A\n";

/// More turns than the packet takes.
const TURNS: u64 = 100;

/// Turns alone bring a packet from a to c, as it was sent. Then there is nothing to do, and no further turn does anything.
#[test]
fn packet_by_turns(rt: HostRuntime) -> Result<(), Fail> {
    let mut net = labelled_network(rt.alloc(), ROW)?;
    let result = carry(&rt, rt.alloc(), &mut net);
    retire(net);
    result
}

fn carry(rt: &impl Abort, alloc: Global, net: &mut Net) -> Result<(), Fail> {
    send(alloc, net, 0, "01 2a eop")?;
    turns(alloc, net)?;
    assert!(rt; has_come(net));
    let count = event_count(net);
    turns(alloc, net)?;
    assert!(rt; has_come(net) && event_count(net) == count);
    Ok(())
}

/// Whether the tokens that were sent are all that arrived: no switch deletes the header.
fn has_come(net: &Net) -> bool {
    has_arrived(net, 1, &[Token::Byte(1), Token::Byte(0x2a), Token::Eop])
        && has_arrived(net, 0, &[])
}

fn event_count(net: &Net) -> u64 {
    net.count()
}

/// Turns of a worker, up to one that did nothing.
fn turns(alloc: Global, net: &mut Net) -> Result<(), Fail> {
    let parts = parts_of(alloc, net)?;
    turns_of_parts(alloc, net, parts.as_slice())
}

/// The parts that a round has for the nodes. It promises nothing, as the next does.
fn parts_of(alloc: Global, net: &Net) -> Result<Vec<Part>, Fail> {
    let wires = net.wires();
    let mut parts = Vec::new(alloc);
    for node in 0..wires.place_count() {
        parts.push(Part::of_round(alloc, wires, node)?)?;
    }
    Ok(parts)
}

fn turns_of_parts(alloc: Global, net: &mut Net, parts: &[Part]) -> Result<(), Fail> {
    let [first, second, third, near, far] = parts else {
        return Ok(());
    };
    let worker = Worker {
        number: 0,
        words: Words::Zero,
        times: 4,
    };
    let mut port = NetPort { net, worker };
    let mut ready = Vec::new(alloc);
    do_turns(
        &mut port,
        &[first, second, third, near, far],
        TURNS,
        1,
        &mut ready,
    )?;
    Ok(())
}
