use crate::calls::{
    answer, apply, begin, described_image, drop_run, entry_count, event_count, finish, load_image,
    placed_network, retire, send, trace,
};
use c104_control::ControlBytes;
use c104_net::{Act, Entry, Event, EventFault, Net, Port, Run};
use c104_plan::Image;
use c104_switch::{ActionOf, Reply};
use c104_token::Token;
use c104_tools::LoadFault;
use std::alloc::Global;
use std::process::Abort;
use std::test::Fail;

/// Three switches in a row, between the terminals `a` and `c`.
const ROW: &[u8] = b"switch A\nswitch B\nswitch C\nterminal a A.0\nterminal c C.1\n\
    wire A.1 B.0\nwire B.1 C.0\nrow A.0 1 sink\nrow A.0 2 1\nrow B.0 2 1\nrow C.0 2 1\n";

/// The most entries of a trace.
const LIMIT: usize = 1_048_576;

/// A trace takes 1,048,576 entries and no more, until a run begins.
#[test]
fn full_trace(rt: HostRuntime) -> Result<(), Fail> {
    let image = described_image(rt.alloc(), ROW)?;
    let mut net = placed_network(rt.alloc(), ROW)?;
    let result = fill_and_begin(&rt, &mut net, &image);
    retire(net);
    result
}

fn fill_and_begin(rt: &impl Abort, net: &mut Net, image: &Image) -> Result<(), Fail> {
    fill(net)?;
    is_full(rt, net, image);
    identify(net, 2)?;
    begin_anew(rt, net)
}

fn fill(net: &mut Net) -> Result<(), Fail> {
    for _ in 0..LIMIT {
        identify(net, 1)?;
    }
    Ok(())
}

fn is_full(rt: &impl Abort, net: &mut Net, image: &Image) {
    assert!(rt; has_no_room(net));
    assert!(rt; entry_count(net, 1) == LIMIT);
    assert!(rt; load_image(net, image) == Err(LoadFault::Port(EventFault::TraceFull)));
}

fn has_no_room(net: &mut Net) -> bool {
    answer(net, &question(1)) == Err(EventFault::TraceFull)
}

fn begin_anew(rt: &impl Abort, net: &mut Net) -> Result<(), Fail> {
    assert!(rt; begin(net));
    assert!(rt; entry_count(net, 1) == 0);
    identify(net, 1)?;
    assert!(rt; entry_count(net, 1) == 1);
    Ok(())
}

/// A switch is asked what it is.
fn identify(net: &mut Net, switch: usize) -> Result<(), Fail> {
    apply(net, &question(switch))
}

fn question(switch: usize) -> Event {
    Event::Control {
        switch,
        bytes: ControlBytes::new(&[0x03]),
    }
}

/// A packet goes through three switches, and each node tells what it did.
#[test]
fn told_entry_by_entry(rt: HostRuntime) -> Result<(), Fail> {
    let mut net = placed_network(rt.alloc(), ROW)?;
    let result = go_through(rt.alloc(), &mut net);
    let run = finish(net);
    let second = second_tells(&run);
    let last = last_tells(&run);
    let count = event_count(&run);
    drop_run(run);
    result?;
    assert!(rt; second);
    assert!(rt; last);
    assert!(rt; count == 23);
    Ok(())
}

/// Whether switch B tells that the packet came in, went through it and out again.
fn second_tells(run: &Run) -> bool {
    let due = [
        (7, Act::Step(ActionOf::CreditOut(0)), Reply::Done),
        (
            8,
            Act::Step(ActionOf::Enter(0, Token::Byte(1))),
            Reply::Done,
        ),
        (9, Act::Step(ActionOf::Enter(0, Token::Eop)), Reply::Done),
        (10, Act::Step(ActionOf::Input(0, 0)), Reply::Done),
        (11, Act::Step(ActionOf::Claim(0, 1)), Reply::Done),
        (12, Act::Step(ActionOf::Input(0, 0)), Reply::Done),
        (13, Act::Step(ActionOf::CreditIn(1)), Reply::Done),
        (
            14,
            Act::Step(ActionOf::Leave(1)),
            Reply::Token(Token::Byte(1)),
        ),
        (15, Act::Step(ActionOf::Leave(1)), Reply::Token(Token::Eop)),
    ];
    tells(run, 1, &due)
}

/// Whether terminal c tells that the packet came in, and that its first token arrived.
fn last_tells(run: &Run) -> bool {
    let due = [
        (19, Act::CreditOut, Reply::Done),
        (20, Act::Enter(Token::Byte(1)), Reply::Done),
        (21, Act::Enter(Token::Eop), Reply::Done),
        (22, Act::Drain, Reply::Token(Token::Byte(1))),
    ];
    tells(run, 4, &due)
}

/// Whether a node tells these acts and replies, at these tickets.
fn tells(run: &Run, node: usize, due: &[(u64, Act, Reply)]) -> bool {
    match trace(run, node) {
        Some(trace) => are_entries(trace, due),
        None => false,
    }
}

fn are_entries(trace: &[Entry], due: &[(u64, Act, Reply)]) -> bool {
    if trace.len() != due.len() {
        return false;
    }
    for (entry, (ticket, act, reply)) in trace.iter().zip(due.iter()) {
        if entry.ticket != *ticket || !is_same(&entry.act, act) || entry.reply != *reply {
            return false;
        }
    }
    true
}

/// Whether two acts are one. No packet is sent here.
fn is_same(one: &Act, other: &Act) -> bool {
    match (one, other) {
        (Act::Step(one), Act::Step(other)) => one == other,
        (Act::Enter(one), Act::Enter(other)) => one == other,
        (Act::CreditOut, Act::CreditOut) => true,
        (Act::Drain, Act::Drain) => true,
        _ => false,
    }
}

fn go_through(alloc: Global, net: &mut Net) -> Result<(), Fail> {
    come_in(alloc, net)?;
    pass(net, 0, Port::Switch(1, 0))?;
    pass(net, 1, Port::Switch(2, 0))?;
    pass(net, 2, Port::Terminal(1))?;
    apply(net, &Event::Drain { terminal: 1 })
}

/// The packet is sent, and comes in at switch A.
fn come_in(alloc: Global, net: &mut Net) -> Result<(), Fail> {
    credit(net, Port::Switch(0, 0))?;
    send(alloc, net, 0, "01 eop")?;
    cross_twice(net, Port::Terminal(0))
}

/// The packet goes through a switch, from link 0 to link 1, and over the wire to its far end.
fn pass(net: &mut Net, switch: usize, far: Port) -> Result<(), Fail> {
    go_on(net, switch)?;
    credit(net, far)?;
    cross_twice(net, Port::Switch(switch, 1))
}

/// Both tokens go to the output.
fn go_on(net: &mut Net, switch: usize) -> Result<(), Fail> {
    turn(net, switch)?;
    claim(net, switch)?;
    turn(net, switch)
}

/// A turn of the input of link 0.
fn turn(net: &mut Net, switch: usize) -> Result<(), Fail> {
    let event = Event::Input {
        switch,
        link: 0,
        word: 0,
    };
    apply(net, &event)
}

/// That input claims the output of link 1.
fn claim(net: &mut Net, switch: usize) -> Result<(), Fail> {
    let event = Event::Claim {
        switch,
        input: 0,
        output: 1,
    };
    apply(net, &event)
}

fn credit(net: &mut Net, port: Port) -> Result<(), Fail> {
    apply(net, &Event::Credit(port))
}

fn cross_twice(net: &mut Net, port: Port) -> Result<(), Fail> {
    let event = Event::Cross(port);
    apply(net, &event)?;
    apply(net, &event)
}
