//! Networks whose fabrics are used and audited, and what all tests do with them.
ghost use Rattle.std.specs.Prelude.{IfSome, ◌≡◌};
ghost use Rattle.c104_workers.specs.Fabrics.{AreSeatsOf, handed_of};

use crate::calls::{drop_plan, drop_run};
use crate::plan_calls::{Maker, image, plan_of};
use c104_event::Event;
use c104_plan::Plan;
use c104_run::Net;
use c104_token::parse_packet;
use c104_workers::{Fabric, Gathered, Naming, Ready, Seat};
use std::alloc::Global;

/// Two terminals on one switch, with a row to each.
pub const PLAN: &[u8] = b"switch A\nterminal a A.0\nterminal b A.1\n\
    row A.0 1 0\nrow A.0 2 1\nrow A.1 1 0\nrow A.1 2 1\n";

/// Switches 0 to 5 in two rows of three, each with a terminal.
pub const MESH: &[u8] = b"mesh 3 2 1\n";

/// Four switches, each with a terminal.
pub const CUBE: &[u8] = b"cube 2 1\n";

// These functions promise nothing, or only whose the seats are, since the prover would compute with literal texts.

fn placed(alloc: Global, plan: &Plan) -> Option<Net> {
    let labels = image(alloc, plan, Maker::Any).ok()?;
    Net::placed(alloc, plan, &labels).ok()
}

/// A network of a description, with the image of its labels.
pub fn network(alloc: Global, text: &[u8]) -> Option<Net> {
    let plan = plan_of(alloc, text)?;
    let net = placed(alloc, &plan);
    drop_plan(plan);
    net
}

/// A packet to the second terminal from this one.
pub fn sent(alloc: Global, terminal: usize) -> Option<Event> {
    let packet = parse_packet(alloc, "01 aa bb eop").ok()?;
    Some(Event::Send { terminal, packet })
}

/// Sends a packet of the first terminal.
fn send(alloc: Global, net: &mut Net) {
    if let Some(event) = sent(alloc, 0) {
        let _answer = net.apply(&event);
    }
}

/// A network in which a packet waits at the first terminal, and a round was done.
fn busy_network(alloc: Global, text: &[u8]) -> Option<Net> {
    let mut net = network(alloc, text)?;
    send(alloc, &mut net);
    send(alloc, &mut net);
    let _end = net.rounds(1);
    Some(net)
}

/// Such a network, ready for a fabric of this many seats.
pub fn busy_ready(alloc: Global, text: &[u8], seats: usize) -> Option<Ready> {
    let net = busy_network(alloc, text)?;
    ready_of(alloc, net, seats)
}

/// A network, ready for a fabric of this many seats.
pub fn ready_of(alloc: Global, net: Net, seats: usize) -> Option<Ready> {
    match Ready::new(alloc, net, seats) {
        Ok(ready) => Some(ready),
        Err((net, _)) => {
            net.retire();
            None
        }
    }
}

/// The fabric of a network that is ready, and its seats.
pub fn fabric_of<N: Naming>(alloc: Global, ready: Ready) -> Option<(Fabric<N>, Vec<Seat>)>
    requires { (ready.word_id ≡ N.word) × (handed_of ready.net ≡ N.handed) }
    ensures { IfSome result (λ made. AreSeatsOf made.0.word_id made.1.items) }
{
    match ready.into_fabric::<N>(alloc) {
        Ok(made) => Some(made),
        Err((net, _)) => {
            net.retire();
            None
        }
    }
}

/// Whether what a fabric left is one run.
pub fn is_run(alloc: Global, gathered: &Gathered) -> bool {
    match gathered.audit(alloc) {
        Ok(run) => {
            drop_run(run);
            true
        }
        Err(_) => false,
    }
}
