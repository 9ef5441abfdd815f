use crate::calls::{
    answers, did_arrive, drop_run, finish, new_network, packet_of, placed_network, register, rounds,
};
use c104_control::ControlBytes;
use c104_net::{Event, EventFault, Net, Port};
use c104_switch::Reply;
use c104_token::{Items, Mark, Packet, Token};
use std::alloc::Global;
use std::process::Abort;
use std::test::Fail;

/// The terminals `a` on link 0 and `b` on link 1. A new network has no rows, whatever is said here.
const PLAN: &[u8] = b"switch A\nterminal a A.0\nterminal b A.1\n";

/// Three switches in a row, between the terminals `a` and `c`.
const ROW: &[u8] = b"switch A\nswitch B\nswitch C\nterminal a A.0\nterminal c C.1\n\
    wire A.1 B.0\nwire B.1 C.0\nrow A.0 1 sink\nrow A.0 2 1\nrow B.0 2 1\nrow C.0 2 1\n";

/// A new network is reset and not started. Commands configure its switch and start it, and then a
/// packet goes from one terminal to the other.
#[test]
fn new_to_started(rt: HostRuntime) -> Result<(), Fail> {
    let mut net = new_network(rt.alloc(), PLAN)?;
    let result = start(&rt, rt.alloc(), &mut net);
    let run = finish(net);
    let arrived = did_arrive(&run, 1, &[Token::Byte(1), Token::Eop]);
    drop_run(run);
    result?;
    assert!(rt; arrived);
    Ok(())
}

fn start(rt: &impl Abort, alloc: Global, net: &mut Net) -> Result<(), Fail> {
    assert!(rt; sets_and_sends(alloc, net)?);
    assert!(rt; register(net, 0, 0x0140) == Some(2));
    rounds(net, 8)
}

/// The packet to be sent, and one that is too long.
fn sets_and_sends(alloc: Global, net: &mut Net) -> Result<bool, Fail> {
    let packet = packet_of(alloc, "01 eop")?;
    let long = long_packet(alloc)?;
    answers_a_start(alloc, net, packet, long)
}

fn long_packet(alloc: Global) -> Result<Packet, Fail> {
    Ok(Packet {
        bytes: Items::new(vec![in alloc; 0x55; 4097]?),
        mark: Mark::Eop,
    })
}

fn answers_a_start(
    alloc: Global,
    net: &mut Net,
    packet: Packet,
    long: Packet,
) -> Result<bool, Fail> {
    let events = [
        command(ControlBytes::new(&[0x05, 0x40, 0x01, 0x02, 0x00, 0x00, 0x00])),
        command(ControlBytes::new(&[0x05, 0x80, 0x01, 0x01, 0x00, 0x00, 0x00])),
        command(ControlBytes::new(&[0x01])),
        Event::Send {
            terminal: 0,
            packet,
        },
        Event::Send {
            terminal: 0,
            packet: long,
        },
        Event::Drain { terminal: 1 },
    ];
    let due = [
        Ok(Reply::Control(ControlBytes::new(&[0x85]))),
        Ok(Reply::Control(ControlBytes::new(&[0x85]))),
        Ok(Reply::Control(ControlBytes::new(&[0x81]))),
        Ok(Reply::Done),
        Err(EventFault::TooLong),
        Ok(Reply::NotReady),
    ];
    answers(alloc, net, &events, &due)
}

/// A command to the only switch.
fn command(bytes: ControlBytes) -> Event {
    Event::Control { switch: 0, bytes }
}

/// A packet goes through three switches, one event after the other.
#[test]
fn each_event(rt: HostRuntime) -> Result<(), Fail> {
    let mut net = placed_network(rt.alloc(), ROW)?;
    let result = go_through(&rt, rt.alloc(), &mut net);
    let run = finish(net);
    let arrived = did_arrive(&run, 1, &[Token::Byte(1)]);
    drop_run(run);
    result?;
    assert!(rt; arrived);
    Ok(())
}

fn go_through(rt: &impl Abort, alloc: Global, net: &mut Net) -> Result<(), Fail> {
    come_in(rt, alloc, net)?;
    pass_on(rt, alloc, net)?;
    assert!(rt; drains(alloc, net)?);
    Ok(())
}

fn come_in(rt: &impl Abort, alloc: Global, net: &mut Net) -> Result<(), Fail> {
    assert!(rt; enters(alloc, net)?);
    assert!(rt; refuses(alloc, net)?);
    Ok(())
}

fn pass_on(rt: &impl Abort, alloc: Global, net: &mut Net) -> Result<(), Fail> {
    assert!(rt; passes(alloc, net, 0, Port::Switch(1, 0))?);
    assert!(rt; passes(alloc, net, 1, Port::Switch(2, 0))?);
    assert!(rt; passes(alloc, net, 2, Port::Terminal(1))?);
    Ok(())
}

/// The packet is sent, and goes over the wire to switch A.
fn enters(alloc: Global, net: &mut Net) -> Result<bool, Fail> {
    let packet = packet_of(alloc, "01 eop")?;
    let events = [
        Event::Credit(Port::Switch(0, 0)),
        Event::Send {
            terminal: 0,
            packet,
        },
        Event::Cross(Port::Terminal(0)),
        Event::Cross(Port::Terminal(0)),
        Event::Cross(Port::Terminal(0)),
    ];
    let due = [
        Ok(Reply::Done),
        Ok(Reply::Done),
        Ok(Reply::Token(Token::Byte(1))),
        Ok(Reply::Token(Token::Eop)),
        Ok(Reply::NotReady),
    ];
    answers(alloc, net, &events, &due)
}

/// What isn't ready or isn't there, and a command.
fn refuses(alloc: Global, net: &mut Net) -> Result<bool, Fail> {
    let events = [
        Event::Cross(Port::Switch(0, 1)),
        Event::Cross(Port::Switch(1, 5)),
        Event::Credit(Port::Switch(1, 32)),
        Event::Control {
            switch: 1,
            bytes: ControlBytes::new(&[0x03]),
        },
    ];
    let due = [
        Ok(Reply::NotReady),
        Err(EventFault::NotWired),
        Err(EventFault::NoLink),
        Ok(Reply::Control(ControlBytes::new(&[0x83, 0x04, 0xc1, 0x00, 0x00]))),
    ];
    answers(alloc, net, &events, &due)
}

/// The packet goes through a switch, from link 0 to link 1, and over the wire to its far end.
fn passes(alloc: Global, net: &mut Net, switch: usize, far: Port) -> Result<bool, Fail> {
    let events = [
        Event::Input {
            switch,
            link: 0,
            word: 0,
        },
        Event::Claim {
            switch,
            input: 0,
            output: 1,
        },
        Event::Input {
            switch,
            link: 0,
            word: 0,
        },
        Event::Credit(far),
        Event::Cross(Port::Switch(switch, 1)),
        Event::Cross(Port::Switch(switch, 1)),
    ];
    let due = [
        Ok(Reply::Done),
        Ok(Reply::Done),
        Ok(Reply::Done),
        Ok(Reply::Done),
        Ok(Reply::Token(Token::Byte(1))),
        Ok(Reply::Token(Token::Eop)),
    ];
    answers(alloc, net, &events, &due)
}

/// The first token arrives.
fn drains(alloc: Global, net: &mut Net) -> Result<bool, Fail> {
    let events = [Event::Drain { terminal: 1 }];
    let due = [Ok(Reply::Token(Token::Byte(1)))];
    answers(alloc, net, &events, &due)
}
