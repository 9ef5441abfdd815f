//! Calls of networks and fabrics that take no memory, and events that aren't done, which take none: with every growth
//! refused each answers as ever.
ghost use Rattle.std.specs.Prelude.{◌≡◌};
ghost use Rattle.c104_workers.specs.Fabrics.{handed_of};

use crate::calls::{PLAN, do_all, drop_run};
use crate::fabrics::{fabric_of, ready_of};
use crate::ground::{Ground, Suite, growths_on, is_right_on};
use crate::growths::{Growing, Refusal, Sharing, is_none_told, takes_none};
use crate::outcomes::Outcome;
use c104_control::ControlBytes;
use c104_event::{Event, EventFault, Port};
use c104_net::Net;
use c104_switch::Reply;
use c104_token::{Items, Mark, Packet};
use c104_workers::{Fabric, Naming, Ready, Seat};
use std::alloc::Global;
use std::marker::Brand;
use std::sync::Wait;
use std::thread::Threads;

/// The most entries of a trace.
const LIMIT: usize = 1_048_576;

/// The most bytes of a packet.
const LONGEST: usize = 4096;

/// The event that sends a packet of this many bytes from a to b.
fn sending(alloc: Global, length: usize) -> Option<Event> {
    let packet = Packet {
        bytes: Items::new(vec![in alloc; 1; length].ok()?),
        mark: Mark::Eop,
    };
    Some(Event::Send {
        terminal: 0,
        packet,
    })
}

/// What a network is asked.
#[derive(Clone, Copy)]
enum Question {
    /// To begin anew, and what it holds.
    Begin,
    /// To do events that aren't ready, or that can't happen.
    Idle,
    /// To send a packet that is too long.
    TooLong,
    /// To send a packet where too many tokens wait.
    OutboxFull,
    /// That a token arrives where too many have arrived.
    InboxFull,
    /// To do a command of a switch whose trace is full.
    TraceFull,
    /// To end, after the first run.
    Finish,
}

/// A network is asked something.
#[derive(Drop)]
struct Asking<'a>(Ground<'a>, Question);

impl Growing for Asking<'_> {
    fn call(&self, alloc: Global, refusal: Refusal) -> Outcome {
        let Some(net) = self.0.net(alloc) else {
            return Outcome::Wrong;
        };
        match self.1 {
            Question::Begin => begun(alloc, refusal, net),
            Question::Idle => idle(alloc, refusal, net),
            Question::TooLong => too_long(alloc, refusal, net),
            Question::OutboxFull => outbox_full(alloc, refusal, net),
            Question::InboxFull => inbox_full(alloc, refusal, net),
            Question::TraceFull => trace_full(alloc, refusal, net),
            Question::Finish => finished(alloc, refusal, net, self.0),
        }
    }
}

fn begun(alloc: Global, refusal: Refusal, mut net: Net) -> Outcome {
    refusal.begin(alloc);
    let is_begun = net.quiet() && net.begin();
    let is_seen = net.trace(0).is_some() && net.arrived(1).is_some();
    net.retire();
    refusal.end(alloc);
    Outcome::done_if(is_begun && is_seen)
}

fn idle(alloc: Global, refusal: Refusal, mut net: Net) -> Outcome {
    refusal.begin(alloc);
    let are_refused = are_refused(&mut net);
    refusal.end(alloc);
    net.retire();
    Outcome::done_if(are_refused)
}

/// Whether events that can't be done are answered so.
fn are_refused(net: &mut Net) -> bool {
    let cases = [
        (Event::Drain { terminal: 0 }, Ok(Reply::NotReady)),
        (Event::Cross(Port::Switch(0, 0)), Ok(Reply::NotReady)),
        (Event::Drain { terminal: 9 }, Err(EventFault::NoNode)),
        (Event::Cross(Port::Switch(0, 32)), Err(EventFault::NoLink)),
        (Event::Cross(Port::Switch(0, 7)), Err(EventFault::NotWired)),
    ];
    for (event, due) in &cases {
        if net.apply(event) != *due {
            return false;
        }
    }
    true
}

fn too_long(alloc: Global, refusal: Refusal, mut net: Net) -> Outcome {
    let found = match sending(alloc, LONGEST + 1) {
        Some(event) => refused_with(alloc, refusal, &mut net, &event, EventFault::TooLong),
        None => Outcome::Wrong,
    };
    net.retire();
    found
}

/// An event is refused with this fault.
fn refused_with(
    alloc: Global,
    refusal: Refusal,
    net: &mut Net,
    event: &Event,
    due: EventFault,
) -> Outcome {
    refusal.begin(alloc);
    let answer = net.apply(event);
    refusal.end(alloc);
    Outcome::done_if(answer == Err(due))
}

/// Sixteen packets of 4,096 tokens wait: 65,536 tokens, as many as may.
fn outbox_full(alloc: Global, refusal: Refusal, mut net: Net) -> Outcome {
    let found = match sending(alloc, LONGEST - 1) {
        Some(event) => {
            repeat(&mut net, &event, 16);
            refused_with(alloc, refusal, &mut net, &event, EventFault::OutboxFull)
        }
        None => Outcome::Wrong,
    };
    net.retire();
    found
}

/// Four times as many arrive: 262,144 tokens, as many as may. Of the next sixteen packets the first token stops the rounds.
fn inbox_full(alloc: Global, refusal: Refusal, mut net: Net) -> Outcome {
    let found = match sending(alloc, LONGEST - 1) {
        Some(event) => {
            fill_inbox(&mut net, &event);
            let drain = Event::Drain { terminal: 1 };
            refused_with(alloc, refusal, &mut net, &drain, EventFault::InboxFull)
        }
        None => Outcome::Wrong,
    };
    net.retire();
    found
}

fn fill_inbox(net: &mut Net, event: &Event) {
    for _ in 0..5 {
        repeat(net, event, 16);
        let _end = net.rounds(150_000);
    }
}

fn trace_full(alloc: Global, refusal: Refusal, mut net: Net) -> Outcome {
    let question = Event::Control {
        switch: 0,
        bytes: ControlBytes::new(&[0x03]),
    };
    repeat(&mut net, &question, LIMIT);
    let found = refused_with(alloc, refusal, &mut net, &question, EventFault::TraceFull);
    net.retire();
    found
}

/// Does an event again and again.
fn repeat(net: &mut Net, event: &Event, count: usize) {
    for _ in 0..count {
        let _answer = net.apply(event);
    }
}

fn finished(alloc: Global, refusal: Refusal, mut net: Net, ground: Ground<'_>) -> Outcome {
    do_all(&mut net, ground.events);
    refusal.begin(alloc);
    let run = net.finish();
    refusal.end(alloc);
    let count = run.count();
    drop_run(run);
    Outcome::done_if(count == ground.events.len() as u64)
}

/// A fabric is asked whether it is quiet, and events that aren't done; then it ends, and what it leaves is retired.
#[derive(Drop)]
struct Idling;

impl Sharing for Idling {
    fn call<R: Threads + Wait + Sync>(
        &self,
        rt: &R,
        alloc: Global,
        ground: Ground<'_>,
        refusal: Refusal,
    ) -> Outcome {
        match ready_of(alloc, ground) {
            Some(ready) => idled::<Brand, R>(rt, alloc, refusal, ready),
            None => Outcome::Wrong,
        }
    }
}

fn idled<N: Naming, R: Wait>(rt: &R, alloc: Global, refusal: Refusal, ready: Ready) -> Outcome
    requires { (ready.word_id ≡ N.word) × (handed_of ready.net ≡ N.handed) }
{
    let Some((fabric, mut seats)) = fabric_of::<N>(alloc, ready) else {
        return Outcome::Wrong;
    };
    let Some(mut seat) = seats.pop() else {
        fabric.close(seats).retire();
        return Outcome::Wrong;
    };
    refusal.begin(alloc);
    let is_idle = is_idle(rt, &fabric, &mut seat);
    seats.clear();
    seats.push_reserved(seat);
    fabric.close(seats).retire();
    refusal.end(alloc);
    Outcome::done_if(is_idle)
}

fn is_idle<N: Naming, R: Wait>(rt: &R, fabric: &Fabric<N>, seat: &mut Seat) -> bool
    requires { seat.old.0.word_id ≡ fabric.now.word_id }
    ensures { seat.new.0.word_id ≡ fabric.now.word_id }
{
    let is_quiet = fabric.quiet(rt);
    let are_refused = are_refused_by(rt, fabric, seat);
    is_quiet && are_refused && seat.calls().is_empty()
}

fn are_refused_by<N: Naming, R: Wait>(rt: &R, fabric: &Fabric<N>, seat: &mut Seat) -> bool
    requires { seat.old.0.word_id ≡ fabric.now.word_id }
    ensures { seat.new.0.word_id ≡ fabric.now.word_id }
{
    fabric.apply(rt, seat, &Event::Drain { terminal: 0 }) == Ok(Reply::NotReady)
        && fabric.apply(rt, seat, &Event::Drain { terminal: 9 }) == Err(EventFault::NoNode)
        && fabric.apply(rt, seat, &Event::Cross(Port::Switch(0, 32))) == Err(EventFault::NoLink)
        && fabric.apply(rt, seat, &Event::Cross(Port::Switch(0, 7))) == Err(EventFault::NotWired)
}

/// Networks that nobody gives memory.
#[derive(Drop)]
struct IdleCalls;

impl Suite for IdleCalls {
    fn is_right(&self, rt: &HostRuntime, ground: Ground<'_>) -> bool {
        for (name, question) in [
            (
                "Net::begin, Net::quiet, Net::trace, Net::arrived",
                Question::Begin,
            ),
            ("Net::apply of what isn't done", Question::Idle),
            ("Net::apply of a packet that is too long", Question::TooLong),
            (
                "Net::apply where too many tokens wait",
                Question::OutboxFull,
            ),
            (
                "Net::apply where too many tokens arrived",
                Question::InboxFull,
            ),
            ("Net::apply where a trace is full", Question::TraceFull),
            ("Net::finish", Question::Finish),
        ] {
            if !takes_none(rt, name, &Asking(ground, question)) {
                return false;
            }
        }
        true
    }
}

#[test]
fn idle_networks(rt: HostRuntime) {
    assert!(rt; is_right_on(&rt, PLAN, &IdleCalls));
}

#[test]
fn idle_fabrics(rt: HostRuntime) {
    let growths = growths_on(&rt, rt.alloc(), PLAN, &Idling);
    let name = "Fabric::quiet, Fabric::close, Gathered::retire";
    assert!(rt; is_none_told(&rt, name, growths));
}
