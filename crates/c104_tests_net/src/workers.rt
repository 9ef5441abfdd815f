//! Workers: two of them run at once, they do no turns where none are asked, and stop at a full trace.
//!
//! No contract tells that a thread runs, which locks are held, or that an event is done behind them. So what these tests
//! refuse nothing else does; each names the wrong bodies.
ghost use Rattle.std.specs.Prelude.{◌≡◌};
ghost use Rattle.c104_workers.specs.Fabrics.{AreSeatsOf, handed_of};

use crate::calls::{apply, labelled_network, placed_network, retire};
use crate::fabrics::{PLAN, audit_fault, ready_of, ready_plan, seated};
use c104_control::ControlBytes;
use c104_event::{Event, EventFault};
use c104_net::Net;
use c104_workers::{
    Fabric, Gate, Gathered, Naming, OpenGate, Ready, RunFault, Seat, Words, run_workers,
};
use std::alloc::Global;
use std::marker::Brand;
use std::sync::Wait;
use std::sync::atomic::{AtomicBool, Ordering};
use std::test::Fail;
use std::thread::Threads;

/// Switches 0 to 5 in two rows of three, each with a terminal: t0 is the node 6, and t1 the node 7.
const MESH: &[u8] = b"mesh 3 2 1\n";

/// The most entries of a trace.
const LIMIT: usize = 1_048_576;

/// One of two that are to meet.
#[derive(Drop)]
struct Side {
    here: AtomicBool,
    met: AtomicBool,
}

impl Side {
    fn new() -> Side {
        Side {
            here: AtomicBool::new(false),
            met: AtomicBool::new(false),
        }
    }

    /// Comes, and waits for a while for the other.
    fn meet(&self, other: &Side) {
        self.here.store(true, Ordering::SeqCst);
        for _ in 0..100_000_000u32 {
            if other.here.load(Ordering::SeqCst) {
                self.met.store(true, Ordering::SeqCst);
                return;
            }
        }
    }
}

/// Where workers 0 and 1 are to meet.
#[derive(Drop)]
struct Meeting {
    first: Side,
    second: Side,
}

impl Meeting {
    fn new() -> Meeting {
        Meeting {
            first: Side::new(),
            second: Side::new(),
        }
    }

    fn come(&self, worker: usize) {
        if worker == 0 {
            self.first.meet(&self.second);
        } else {
            self.second.meet(&self.first);
        }
    }

    /// Whether each has seen the other.
    fn is_over(&self) -> bool {
        self.first.met.load(Ordering::SeqCst) && self.second.met.load(Ordering::SeqCst)
    }
}

/// Workers meet before a turn.
#[derive(Drop)]
struct BeforeTurns(Meeting);

impl Gate for BeforeTurns {
    fn before(&self, worker: usize, _turn: u64) {
        self.0.come(worker);
    }

    fn inside(&self, _worker: usize, _node: usize) {}
}

/// Workers meet while worker 0 has the lock of the terminal t0, and worker 1 that of t1.
#[derive(Drop)]
struct InsideTerminals(Meeting);

impl Gate for InsideTerminals {
    fn before(&self, _worker: usize, _turn: u64) {}

    fn inside(&self, worker: usize, node: usize) {
        if node.checked_sub(6) == Some(worker) {
            self.0.come(worker);
        }
    }
}

/// A turn of two workers, and then the fabric ends.
fn one_turn<N: Naming + Send + Sync, R: Threads + Wait + Sync, G: Gate + Sync>(
    rt: &R,
    alloc: Global,
    ready: Ready,
    gate: &G,
) -> Result<bool, Fail>
    requires { (ready.word_id ≡ N.word) × (handed_of ready.net ≡ N.handed) }
{
    let (fabric, mut seats) = seated::<N>(alloc, ready)?;
    let end = turns(rt, alloc, &fabric, &mut seats, gate, 1);
    fabric.close(seats).retire();
    Ok(end == Some(Ok(())))
}

/// Turns of a worker for each seat. None if there are no seats.
fn turns<N: Naming + Send + Sync, R: Threads + Wait + Sync, G: Gate + Sync>(
    rt: &R,
    alloc: Global,
    fabric: &Fabric<N>,
    seats: &mut Vec<Seat>,
    gate: &G,
    count: u64,
) -> Option<Result<(), RunFault>>
    requires { AreSeatsOf fabric.now.word_id seats.old.items }
    ensures { AreSeatsOf fabric.now.word_id seats.new.items }
{
    if seats.is_empty() {
        return None;
    }
    let seats = seats.as_mut_slice();
    Some(run_workers(alloc, rt, fabric, seats, gate, Words::Zero, count))
}

/// Two workers are before a turn at once. It fails where all workers run on one thread, one after another: then the first
/// waits for the second in vain.
#[test]
fn two_before_a_turn(rt: HostRuntime) -> Result<(), Fail> {
    let ready = ready_plan(rt.alloc(), 2)?;
    let gate = BeforeTurns(Meeting::new());
    let done = one_turn::<Brand, _, _>(&rt, rt.alloc(), ready, &gate)?;
    assert!(rt; done && gate.0.is_over());
    Ok(())
}

/// Two nodes are locked at once. It fails where one lock is round everything, since then a worker can't come inside an
/// event while another is inside one; and where the gate is never asked inside an event, under the locks.
#[test]
fn two_inside_nodes(rt: HostRuntime) -> Result<(), Fail> {
    let net = labelled_network(rt.alloc(), MESH)?;
    let ready = ready_of(rt.alloc(), net, 2)?;
    let gate = InsideTerminals(Meeting::new());
    let done = one_turn::<Brand, _, _>(&rt, rt.alloc(), ready, &gate)?;
    assert!(rt; done && gate.0.is_over());
    Ok(())
}

/// No turn adds a call.
#[test]
fn no_turns(rt: HostRuntime) -> Result<(), Fail> {
    let ready = ready_plan(rt.alloc(), 3)?;
    let (asked, lengths) = after_no_turns::<Brand, _>(&rt, rt.alloc(), ready)?;
    assert!(rt; asked && lengths == Some([1, 0, 0]));
    Ok(())
}

/// A command is asked through the first of three seats; then workers do no turns, and each seat's calls are counted.
fn after_no_turns<N: Naming + Send + Sync, R: Threads + Wait + Sync>(
    rt: &R,
    alloc: Global,
    ready: Ready,
) -> Result<(bool, Option<[usize; 3]>), Fail>
    requires { (ready.word_id ≡ N.word) × (handed_of ready.net ≡ N.handed) }
{
    let (fabric, mut seats) = seated::<N>(alloc, ready)?;
    let asked = is_asked(rt, &fabric, &mut seats);
    let end = turns(rt, alloc, &fabric, &mut seats, &OpenGate, 0);
    let gathered = fabric.close(seats);
    let lengths = call_counts(&gathered);
    let fault = audit_fault(alloc, &gathered);
    gathered.retire();
    Ok((asked && end == Some(Ok(())) && fault == None, lengths))
}

/// Whether the switch replies to a command through the first seat.
fn is_asked<N: Naming, R: Wait>(rt: &R, fabric: &Fabric<N>, seats: &mut Vec<Seat>) -> bool
    requires { AreSeatsOf fabric.now.word_id seats.old.items }
    ensures { AreSeatsOf fabric.now.word_id seats.new.items }
{
    match seats.as_mut_slice() {
        [first, ..] => fabric.apply(rt, first, &question()).is_ok(),
        [] => false,
    }
}

/// The switch is asked what it is.
fn question() -> Event {
    Event::Control {
        switch: 0,
        bytes: ControlBytes::new(&[0x03]),
    }
}

/// How many calls each of three seats has.
fn call_counts(gathered: &Gathered) -> Option<[usize; 3]> {
    match gathered.seats() {
        [first, second, third] => Some([
            first.calls.as_slice().len(),
            second.calls.as_slice().len(),
            third.calls.as_slice().len(),
        ]),
        _ => None,
    }
}

/// A worker stops where the trace of a node is full. It fails where workers do no event, or where each event is answered
/// that it isn't ready: then nobody stops.
#[test]
fn stopped_by_a_full_trace(rt: HostRuntime) -> Result<(), Fail> {
    let mut net = placed_network(rt.alloc(), PLAN)?;
    if let Err(fail) = fill(&mut net) {
        retire(net);
        return Err(fail);
    }
    let ready = ready_of(rt.alloc(), net, 1)?;
    let end = end_of_a_turn::<Brand, _>(&rt, rt.alloc(), ready)?;
    assert!(rt; end == Some(Err(RunFault::Event(0, EventFault::TraceFull))));
    Ok(())
}

/// The trace of the switch is filled.
fn fill(net: &mut Net) -> Result<(), Fail> {
    for _ in 0..LIMIT {
        apply(net, &question())?;
    }
    Ok(())
}

/// How a turn of workers ends.
fn end_of_a_turn<N: Naming + Send + Sync, R: Threads + Wait + Sync>(
    rt: &R,
    alloc: Global,
    ready: Ready,
) -> Result<Option<Result<(), RunFault>>, Fail>
    requires { (ready.word_id ≡ N.word) × (handed_of ready.net ≡ N.handed) }
{
    let (fabric, mut seats) = seated::<N>(alloc, ready)?;
    let end = turns(rt, alloc, &fabric, &mut seats, &OpenGate, 1);
    fabric.close(seats).retire();
    Ok(end)
}
