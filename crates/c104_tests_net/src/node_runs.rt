//! The run of the nodes of a network that is taken apart.

use crate::calls::{
    did_arrive, drop_run, event_count, labelled_network, retire, rounds, send, take_apart,
    told_run, trace,
};
use c104_net::{Net, NetParts, Run};
use c104_token::Token;
use std::alloc::Global;
use std::process::Abort;
use std::test::Fail;

/// A switch and two terminals.
const TREE: &[u8] = b"switch A\nterminal a A.0\nterminal b A.1\nlabel tree A\n";

/// The nodes tell what the network did: the packet arrived, and only what was done is told.
#[test]
fn run_of_a_network_taken_apart(rt: HostRuntime) -> Result<(), Fail> {
    let mut net = labelled_network(rt.alloc(), TREE)?;
    if let Err(fail) = send_one(rt.alloc(), &mut net) {
        retire(net);
        return Err(fail);
    }
    let parts = take_apart(net);
    let result = tells_the_packet(&rt, rt.alloc(), &parts);
    parts.retire();
    result
}

/// The terminal a sends one packet to b, and it arrives.
fn send_one(alloc: Global, net: &mut Net) -> Result<(), Fail> {
    send(alloc, net, 0, "01 2a eop")?;
    rounds(net, 20)
}

fn tells_the_packet(rt: &impl Abort, alloc: Global, parts: &NetParts) -> Result<(), Fail> {
    let run = told_run(alloc, parts)?;
    let told = is_told(&run);
    drop_run(run);
    assert!(rt; told);
    Ok(())
}

/// The header is deleted by none, so that all three tokens arrive.
fn is_told(run: &Run) -> bool {
    did_arrive(run, 1, &[Token::Byte(1), Token::Byte(0x2a), Token::Eop])
        && did_arrive(run, 0, &[])
        && event_count(run) > 0
        && trace(run, 3).is_none()
}
