//! Events that threads do through the seats of a fabric.
ghost use Rattle.std.specs.{Prelude.{IfOk, ◌≡◌}, Thread.IsSync};
ghost use Rattle.c104_workers.specs.Fabrics.{AreSeatsOf, handed_of};

use crate::calls::{described_image, drop_run, new_network, packet_of, placed_network};
use c104_control::ControlBytes;
use c104_event::{Event, EventFault, Port};
use c104_net::Net;
use c104_plan::Image;
use c104_switch::Reply;
use c104_token::{Packet, Token};
use c104_tools::ControlPort;
use c104_workers::{AuditFault, Fabric, FabricPort, Gathered, Naming, Ready, Seat};
use std::alloc::Global;
use std::marker::Brand;
use std::sync::Wait;
use std::test::Fail;
use std::thread::{Threads, join};

/// Two terminals on one switch, with a row to each.
pub const PLAN: &[u8] = b"switch A\nterminal a A.0\nterminal b A.1\n\
    row A.0 1 0\nrow A.0 2 1\nrow A.1 1 0\nrow A.1 2 1\n";

/// The network of the plan with the settings of its lines, ready for a fabric of this many seats.
pub fn ready_plan(alloc: Global, seats: usize) -> Result<Ready, Fail> {
    let net = placed_network(alloc, PLAN)?;
    ready_of(alloc, net, seats)
}

/// A network, ready for a fabric of this many seats.
pub fn ready_of(alloc: Global, net: Net, seats: usize) -> Result<Ready, Fail> {
    match Ready::new(alloc, net, seats) {
        Ok(ready) => Ok(ready),
        Err((net, fault)) => {
            net.retire();
            Err(fault.into())
        }
    }
}

/// The fabric of a network that is ready, and its seats.
pub fn seated<N: Naming>(alloc: Global, ready: Ready) -> Result<(Fabric<N>, Vec<Seat>), Fail>
    requires { (ready.word_id ≡ N.word) × (handed_of ready.net ≡ N.handed) }
    ensures { IfOk result (λ made. AreSeatsOf made.0.word_id made.1.items) }
{
    match ready.into_fabric::<N>(alloc) {
        Ok(made) => Ok(made),
        Err((net, fault)) => {
            net.retire();
            Err(fault.into())
        }
    }
}

/// Both packets arrive, and each seat has its 16 calls: a packet sent, two grants, six crossings, four turns of which one is
/// a claim, and three arrivals. It fails where a fabric answers each event that it isn't ready: then no packet arrives, and
/// the threads wait for good.
#[test]
fn packets_by_two_threads(rt: HostRuntime) -> Result<(), Fail> {
    let one = packet_of(rt.alloc(), "01 aa eop")?;
    let two = packet_of(rt.alloc(), "00 bb eom")?;
    let ready = ready_plan(rt.alloc(), 2)?;
    let gathered = run_two::<Brand, _>(&rt, rt.alloc(), ready, (one, two))?;
    let counts = counts_of(&gathered);
    let fault = audit_fault(rt.alloc(), &gathered);
    gathered.retire();
    assert!(rt; counts == (16, 16, 24));
    assert!(rt; fault == None);
    Ok(())
}

/// Why the audit of what a fabric left answers no run, if it doesn't.
pub fn audit_fault(alloc: Global, gathered: &Gathered) -> Option<AuditFault> {
    match gathered.audit(alloc) {
        Ok(run) => {
            drop_run(run);
            None
        }
        Err(fault) => Some(fault),
    }
}

/// How many calls the first two seats have, and how many entries the switch.
fn counts_of(gathered: &Gathered) -> (usize, usize, usize) {
    match (gathered.seats(), gathered.nodes()) {
        ([first, second, ..], [switch, ..]) => (
            first.calls.as_slice().len(),
            second.calls.as_slice().len(),
            switch.trace().len(),
        ),
        _ => (0, 0, 0),
    }
}

/// Each of two seats is used by a thread of its own; then the fabric ends.
fn run_two<N: Naming + Send + Sync, R: Threads + Wait + Sync>(
    rt: &R,
    alloc: Global,
    ready: Ready,
    packets: (Packet, Packet),
) -> Result<Gathered, Fail>
    requires { (ready.word_id ≡ N.word) × (handed_of ready.net ≡ N.handed) }
{
    let (fabric, mut seats) = seated::<N>(alloc, ready)?;
    let Some(second) = seats.pop() else {
        return Ok(fabric.close(seats));
    };
    let Some(first) = seats.pop() else {
        return Ok(fabric.close(seats));
    };
    let (first, second) = by_two_threads(rt, &fabric, first, second, packets);
    let mut seats = Vec::new(alloc);
    let _first = seats.push(first);
    let _second = seats.push(second);
    Ok(fabric.close(seats))
}

/// Two threads, each with a seat of its own.
fn by_two_threads<N: Naming + Send + Sync, R: Threads + Wait + Sync>(
    rt: &R,
    fabric: &Fabric<N>,
    first: Seat,
    second: Seat,
    packets: (Packet, Packet),
) -> (Seat, Seat)
    requires first { first.0.word_id ≡ fabric.now.word_id }
    requires second { second.0.word_id ≡ fabric.now.word_id }
    ensures first { result.0.0.word_id ≡ fabric.now.word_id }
    ensures second { result.1.0.word_id ≡ fabric.now.word_id }
{
    let (one, two) = packets;
    join(
        rt,
        move || -> Seat
            requires { IsSync R.row × (first.0.word_id ≡ fabric.now.word_id) }
            ensures { result.0.word_id ≡ fabric.entry.now.word_id }
        { carried(rt, fabric, first, 0, one) },
        move || -> Seat
            requires { IsSync R.row × (second.0.word_id ≡ fabric.now.word_id) }
            ensures { result.0.word_id ≡ fabric.entry.now.word_id }
        { carried(rt, fabric, second, 1, two) },
    )
}

/// Sends a packet of three tokens to the other terminal, and takes the one that comes from there.
fn carried<N: Naming, R: Wait>(
    rt: &R,
    fabric: &Fabric<N>,
    mut seat: Seat,
    here: usize,
    packet: Packet,
) -> Seat
    requires { seat.0.word_id ≡ fabric.now.word_id }
    ensures { result.0.word_id ≡ fabric.now.word_id }
{
    let events = own_events(here, packet);
    do_each(rt, fabric, &mut seat, &events);
    take_packet(rt, fabric, &mut seat, here);
    seat
}

/// What a terminal and its link of the switch do until its packet stands at the other link: none of it waits for the
/// other terminal.
fn own_events(here: usize, packet: Packet) -> [Event; 9] {
    let turn = |_: u8| Event::Input {
        switch: 0,
        link: here,
        word: 0,
    };
    [
        Event::Send {
            terminal: here,
            packet,
        },
        Event::Credit(Port::Switch(0, here)),
        Event::Cross(Port::Terminal(here)),
        Event::Cross(Port::Terminal(here)),
        Event::Cross(Port::Terminal(here)),
        turn(0),
        Event::Claim {
            switch: 0,
            input: here,
            output: 1 ^ here,
        },
        turn(1),
        turn(2),
    ]
}

/// Does events in turn, whatever they are answered.
fn do_each<N: Naming, R: Wait>(rt: &R, fabric: &Fabric<N>, seat: &mut Seat, events: &[Event])
    requires { seat.old.0.word_id ≡ fabric.now.word_id }
    ensures { seat.new.0.word_id ≡ fabric.now.word_id }
{
    for event in events {
        let _answer = fabric.apply(rt, seat, event);
    }
}

/// Takes the packet that comes to a terminal, up to its terminator: it waits for who sends it.
fn take_packet<N: Naming, R: Wait>(rt: &R, fabric: &Fabric<N>, seat: &mut Seat, here: usize)
    requires { seat.old.0.word_id ≡ fabric.now.word_id }
    ensures { seat.new.0.word_id ≡ fabric.now.word_id }
{
    let grant = Event::Credit(Port::Terminal(here));
    let cross = Event::Cross(Port::Switch(0, here));
    let drain = Event::Drain { terminal: here };
    let _granted = fabric.apply(rt, seat, &grant);
    for _ in rt.forever() {
        let _crossed = fabric.apply(rt, seat, &cross);
        match fabric.apply(rt, seat, &drain) {
            Ok(Reply::Token(Token::Eop | Token::Eom)) | Err(_) => return,
            Ok(_) => (),
        }
    }
    unreachable!()
}

/// Commands by a seat: what is poked is read back, and then the seat ends with the fabric. It fails where a write is
/// dropped or an old value read back, whatever the lists say, and where no event is ever ready.
#[test]
fn commands_by_a_seat(rt: HostRuntime) -> Result<(), Fail> {
    let ready = ready_plan(rt.alloc(), 1)?;
    let (told, gathered) = ask_and_close::<Brand, _>(&rt, rt.alloc(), ready)?;
    let (calls, _, entries) = counts_of(&gathered);
    gathered.retire();
    assert!(rt; told && calls == entries);
    Ok(())
}

/// The last seat is asked, and then the fabric ends with it.
fn ask_and_close<N: Naming, R: Wait>(
    rt: &R,
    alloc: Global,
    ready: Ready,
) -> Result<(bool, Gathered), Fail>
    requires { (ready.word_id ≡ N.word) × (handed_of ready.net ≡ N.handed) }
{
    let (fabric, mut seats) = seated::<N>(alloc, ready)?;
    let Some(mut seat) = seats.pop() else {
        return Ok((false, fabric.close(seats)));
    };
    let told = is_told(rt, &fabric, &mut seat);
    let mut seats = Vec::new(alloc);
    let _kept = seats.push(seat);
    Ok((told, fabric.close(seats)))
}

/// What a seat pokes is read back by it, and a terminal that isn't there is told so.
fn is_told<N: Naming, R: Wait>(rt: &R, fabric: &Fabric<N>, seat: &mut Seat) -> bool
    requires { seat.old.0.word_id ≡ fabric.now.word_id }
    ensures { seat.new.0.word_id ≡ fabric.now.word_id }
{
    let poked = command_by(rt, fabric, seat, &ControlBytes::new(&[5, 2, 1, 5, 0, 0, 0]));
    let read = command_by(rt, fabric, seat, &ControlBytes::new(&[4, 2, 1]));
    let refused = fabric.apply(rt, seat, &Event::Drain { terminal: 9 });
    is_reply(&poked, &[0x85])
        && is_reply(&read, &[0x84, 5, 0, 0, 0])
        && refused == Err(EventFault::NoNode)
}

fn is_reply(answer: &Result<ControlBytes, EventFault>, due: &[u8]) -> bool {
    match answer {
        Ok(bytes) => bytes.as_slice() == due,
        Err(_) => false,
    }
}

/// One command of the switch through a seat.
fn command_by<N: Naming, R: Wait>(
    rt: &R,
    fabric: &Fabric<N>,
    seat: &mut Seat,
    bytes: &ControlBytes,
) -> Result<ControlBytes, EventFault>
    requires { seat.old.0.word_id ≡ fabric.now.word_id }
    ensures { seat.new.0.word_id ≡ fabric.now.word_id }
{
    let mut port = FabricPort { rt, fabric, seat };
    port.command(0, bytes)
}

/// A seat loads an image into a switch that wasn't started: that is then what the switch holds, and each command is a
/// call of the seat and an entry of the switch.
#[test]
fn image_loaded_by_a_seat(rt: HostRuntime) -> Result<(), Fail> {
    let image = described_image(rt.alloc(), PLAN)?;
    let net = new_network(rt.alloc(), PLAN)?;
    let ready = ready_of(rt.alloc(), net, 1)?;
    let (loaded, gathered) = load_and_close::<Brand, _>(&rt, rt.alloc(), ready, &image)?;
    let (calls, _, entries) = counts_of(&gathered);
    gathered.retire();
    assert!(rt; loaded && calls == entries);
    Ok(())
}

/// The last seat loads an image and compares it, and then the fabric ends with it.
fn load_and_close<N: Naming, R: Wait>(
    rt: &R,
    alloc: Global,
    ready: Ready,
    image: &Image,
) -> Result<(bool, Gathered), Fail>
    requires { (ready.word_id ≡ N.word) × (handed_of ready.net ≡ N.handed) }
{
    let (fabric, mut seats) = seated::<N>(alloc, ready)?;
    let Some(mut seat) = seats.pop() else {
        return Ok((false, fabric.close(seats)));
    };
    let loaded = load_by(rt, &fabric, &mut seat, image);
    let verified = verify_by(rt, &fabric, &mut seat, image);
    let mut seats = Vec::new(alloc);
    let _kept = seats.push(seat);
    Ok((loaded && verified, fabric.close(seats)))
}

/// Whether a seat loads an image.
fn load_by<N: Naming, R: Wait>(rt: &R, fabric: &Fabric<N>, seat: &mut Seat, image: &Image) -> bool
    requires { seat.old.0.word_id ≡ fabric.now.word_id }
    ensures { seat.new.0.word_id ≡ fabric.now.word_id }
{
    fabric.load(rt, seat, image).is_ok()
}

/// Whether the switches hold an image, by what a seat reads.
fn verify_by<N: Naming, R: Wait>(rt: &R, fabric: &Fabric<N>, seat: &mut Seat, image: &Image) -> bool
    requires { seat.old.0.word_id ≡ fabric.now.word_id }
    ensures { seat.new.0.word_id ≡ fabric.now.word_id }
{
    fabric.verify(rt, seat, image).is_ok()
}
