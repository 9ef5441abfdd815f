use crate::calls::{answer, packet_of, placed_network, reason, retire};
use c104_control::ControlBytes;
use c104_net::{Event, EventFault, Net, Port, Reason};
use c104_switch::{Action, Reply, Switch, Unready};
use c104_token::Token;
use std::alloc::Global;
use std::process::Abort;
use std::test::Fail;

/// Three switches in a row, with buffers of eight tokens. The terminals `a` and `b` send, and `c` is at
/// the end. Every header below 2 goes by link 1.
const THREE: &[u8] = b"buffer 8\nswitch A\nswitch B\nswitch C\n\
    terminal a A.0\nterminal b A.2\nterminal c C.1\nwire A.1 B.0\nwire B.1 C.0\n\
    row A.0 2 1\nrow A.2 2 1\nrow B.0 2 1\nrow C.0 2 1\n";

/// The ports of the terminals, of their links at switch A, and of the wire from A to B.
const SENDER: Port = Port::Terminal(0);

const OTHER: Port = Port::Terminal(1);

const INPUT: Port = Port::Switch(0, 0);

const OTHER_INPUT: Port = Port::Switch(0, 2);

const OUTPUT: Port = Port::Switch(0, 1);

const NEXT_INPUT: Port = Port::Switch(1, 0);

#[test]
fn every_reason(rt: HostRuntime) -> Result<(), Fail> {
    let mut net = placed_network(rt.alloc(), THREE)?;
    let result = go_through(&rt, rt.alloc(), &mut net);
    retire(net);
    result
}

fn go_through(rt: &impl Abort, alloc: Global, net: &mut Net) -> Result<(), Fail> {
    at_first(rt, net);
    send(rt, alloc, net, 0, "01 02 03 04 05 06 07 eop")?;
    come_in(rt, net);
    fill(rt, net);
    meet(rt, alloc, net)?;
    at_last(rt, net);
    refused_or_ready(rt, net);
    Ok(())
}

/// Two more packets for the output that is full.
fn meet(rt: &impl Abort, alloc: Global, net: &mut Net) -> Result<(), Fail> {
    send(rt, alloc, net, 1, "01 eop")?;
    wait(rt, net);
    stream(rt, net);
    send(rt, alloc, net, 0, "01 eop")?;
    wait_again(rt, net);
    Ok(())
}

/// The event isn't ready, for this reason at this port.
fn refuses(rt: &impl Abort, net: &mut Net, event: Event, port: Port, unready: Unready) {
    assert!(rt;
        is_refused(net, &event, Reason { port, unready }),
        "{unready:?}"
    );
}

fn is_refused(net: &mut Net, event: &Event, due: Reason) -> bool {
    reason(net, event) == Some(due) && answer(net, event) == Ok(Reply::NotReady)
}

/// The event has no reason, and is done.
fn does(rt: &impl Abort, net: &mut Net, event: Event) {
    assert!(rt; is_done(net, &event), "{event:?}");
}

fn is_done(net: &mut Net, event: &Event) -> bool {
    reason(net, event).is_none() && is_done_by(answer(net, event))
}

fn is_done_by(answer: Result<Reply, EventFault>) -> bool {
    match answer {
        Ok(reply) => reply != Reply::NotReady,
        Err(_) => false,
    }
}

/// A terminal sends a packet.
fn send(
    rt: &impl Abort,
    alloc: Global,
    net: &mut Net,
    terminal: usize,
    text: &str,
) -> Result<(), Fail> {
    let packet = packet_of(alloc, text)?;
    does(rt, net, Event::Send { terminal, packet });
    Ok(())
}

/// A turn of an input of switch A.
fn turn(link: usize) -> Event {
    Event::Input {
        switch: 0,
        link,
        word: 0,
    }
}

/// A claim at switch A.
fn claim(input: usize, output: usize) -> Event {
    Event::Claim {
        switch: 0,
        input,
        output,
    }
}

/// A command to switch A.
fn command(bytes: ControlBytes) -> Event {
    Event::Control { switch: 0, bytes }
}

/// Nothing is anywhere, and nothing is granted.
fn at_first(rt: &impl Abort, net: &mut Net) {
    refuses(rt, net, Event::Cross(SENDER), SENDER, Unready::NoToken);
    refuses(rt, net, turn(0), INPUT, Unready::NoToken);
    refuses(rt, net, claim(0, 1), INPUT, Unready::WantsNothing);
    let drain = Event::Drain { terminal: 2 };
    refuses(rt, net, drain, Port::Terminal(2), Unready::NoToken);
}

/// A packet of eight tokens comes in at switch A.
fn come_in(rt: &impl Abort, net: &mut Net) {
    refuses(rt, net, Event::Cross(SENDER), SENDER, Unready::NoCredit);
    does(rt, net, Event::Credit(INPUT));
    refuses(rt, net, Event::Credit(INPUT), INPUT, Unready::NoRoom);
    for _ in 0..8 {
        does(rt, net, Event::Cross(SENDER));
    }
    refuses(rt, net, Event::Credit(INPUT), INPUT, Unready::NoRoom);
}

/// It goes to output 1 of switch A as a whole, which is free and full then.
fn fill(rt: &impl Abort, net: &mut Net) {
    does(rt, net, turn(0));
    refuses(rt, net, turn(0), INPUT, Unready::WantsOutput(1));
    refuses(rt, net, claim(0, 2), INPUT, Unready::OutsideGroup(1));
    does(rt, net, claim(0, 1));
    for _ in 0..7 {
        does(rt, net, turn(0));
    }
    refuses(rt, net, Event::Cross(OUTPUT), OUTPUT, Unready::NoCredit);
}

/// A packet that was sent comes in at another input, and waits for that output.
fn wait(rt: &impl Abort, net: &mut Net) {
    does(rt, net, Event::Credit(OTHER_INPUT));
    does(rt, net, Event::Cross(OTHER));
    does(rt, net, Event::Cross(OTHER));
    does(rt, net, turn(2));
    refuses(rt, net, claim(2, 1), OUTPUT, Unready::NoRoomForHeader);
}

/// Once a token has gone out, it streams to the output.
fn stream(rt: &impl Abort, net: &mut Net) {
    does(rt, net, Event::Credit(NEXT_INPUT));
    does(rt, net, Event::Cross(OUTPUT));
    does(rt, net, claim(2, 1));
    refuses(rt, net, turn(2), OTHER_INPUT, Unready::OutputFull(1));
}

/// The next packet of the first input, which was sent, waits for it.
fn wait_again(rt: &impl Abort, net: &mut Net) {
    does(rt, net, Event::Credit(INPUT));
    does(rt, net, Event::Cross(SENDER));
    does(rt, net, turn(0));
    refuses(rt, net, claim(0, 1), OUTPUT, Unready::Owned(2));
}

/// A switch that isn't started.
fn at_last(rt: &impl Abort, net: &mut Net) {
    does(rt, net, command(ControlBytes::new(&[0x02])));
    let grant = Event::Credit(OTHER_INPUT);
    refuses(rt, net, grant, OTHER_INPUT, Unready::NotStarted);
    refuses(rt, net, turn(0), INPUT, Unready::NotStarted);
    refuses(rt, net, claim(0, 1), INPUT, Unready::NotStarted);
}

/// Events that are refused or always ready.
fn refused_or_ready(rt: &impl Abort, net: &Net) {
    assert!(rt; has_no_reason(net, &Event::Cross(Port::Switch(1, 5))));
    assert!(rt; has_no_reason(net, &claim(0, 32)));
    assert!(rt; has_no_reason(net, &Event::Drain { terminal: 3 }));
    assert!(rt; has_no_reason(net, &command(ControlBytes::new(&[0x06]))));
}

fn has_no_reason(net: &Net, event: &Event) -> bool {
    reason(net, event).is_none()
}

/// A switch by itself tells the three reasons that no network meets.
#[test]
fn of_a_switch(rt: HostRuntime) -> Result<(), Fail> {
    let mut switch = new_switch(rt.alloc())?;
    let past = switch_reason(&switch, &Action::Leave(32));
    let before = switch_reason(&switch, &Action::Enter(0, Token::Eop));
    for _ in 0..8 {
        credit_in(&mut switch);
    }
    let full = switch_reason(&switch, &Action::CreditIn(0));
    put_away(switch);
    assert!(rt; past == Some(Unready::NoLink));
    assert!(rt; before == Some(Unready::NotGranted));
    assert!(rt; full == Some(Unready::CreditFull));
    Ok(())
}

// The calls of a switch, with nothing promised.

fn new_switch(alloc: Global) -> Result<Switch, Fail> {
    Ok(Switch::new(alloc, 64)?)
}

fn switch_reason(switch: &Switch, action: &Action) -> Option<Unready> {
    switch.why(action)
}

fn credit_in(switch: &mut Switch) {
    switch.credit_in(0);
}

fn put_away(switch: Switch) {
    switch.retire();
}
