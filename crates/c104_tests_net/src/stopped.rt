//! Workers that stop after any number of turns.
ghost use Rattle.std.specs.Prelude.{◌≡◌};
ghost use Rattle.c104_workers.specs.Fabrics.{AreSeatsOf, handed_of};

use crate::networks::{CUBE, MESH, PLAN, busy_ready, fabric_of, is_run, network, ready_of};
use c104_control::ControlBytes;
use c104_event::{Event, EventFault};
use c104_run::Net;
use c104_workers::{Fabric, Naming, OpenGate, Ready, RunFault, Seat, Words, run_workers};
use std::alloc::Global;
use std::marker::Brand;
use std::sync::Wait;
use std::thread::Threads;

/// The most turns.
const TURNS: u64 = 20;

/// Whether workers that do a number of turns leave one run.
fn leave_a_run<R: Threads + Wait + Sync>(rt: &R, alloc: Global, text: &[u8], turns: u64) -> bool {
    match busy_ready(alloc, text, 3) {
        Some(ready) => is_a_run::<Brand, R>(rt, alloc, ready, turns) == Some(true),
        None => false,
    }
}

fn is_a_run<N: Naming + Send + Sync, R: Threads + Wait + Sync>(
    rt: &R,
    alloc: Global,
    ready: Ready,
    turns: u64,
) -> Option<bool>
    requires { (ready.word_id ≡ N.word) × (handed_of ready.net ≡ N.handed) }
{
    let (fabric, mut seats) = fabric_of::<N>(alloc, ready)?;
    let is_done = are_done(rt, alloc, &fabric, &mut seats, turns);
    let gathered = fabric.close(seats);
    let is_run = is_run(alloc, &gathered);
    gathered.retire();
    Some(is_done && is_run)
}

/// Whether all turns of a worker for each seat are done.
fn are_done<N: Naming + Send + Sync, R: Threads + Wait + Sync>(
    rt: &R,
    alloc: Global,
    fabric: &Fabric<N>,
    seats: &mut Vec<Seat>,
    turns: u64,
) -> bool
    requires { AreSeatsOf fabric.now.word_id seats.old.items }
    ensures { AreSeatsOf fabric.now.word_id seats.new.items }
{
    if seats.is_empty() {
        return false;
    }
    run_workers(
        alloc,
        rt,
        fabric,
        seats.as_mut_slice(),
        &OpenGate,
        Words::Zero,
        turns,
    )
    .is_ok()
}

/// Wherever three workers stop, the audit of what they leave answers a run. It fails where a worker that stops leaves an
/// event done at one end of a wire alone, or a call without its entries.
#[test]
fn after_any_turns(rt: HostRuntime) {
    for turns in 0..=TURNS {
        assert!(rt;
            leave_a_run(&rt, rt.alloc(), PLAN, turns),
            "after {turns} turns"
        );
        assert!(rt;
            leave_a_run(&rt, rt.alloc(), MESH, turns),
            "after {turns} turns"
        );
        assert!(rt;
            leave_a_run(&rt, rt.alloc(), CUBE, turns),
            "after {turns} turns"
        );
    }
}

/// The most entries of a trace.
const LIMIT: usize = 1_048_576;

/// A network whose switch has room for a few more entries in its trace.
fn almost_full_network(alloc: Global) -> Option<Net> {
    let mut net = network(alloc, PLAN)?;
    fill(&mut net);
    Some(net)
}

/// The switch is asked what it is, until a few more entries fill its trace.
fn fill(net: &mut Net) {
    let question = Event::Control {
        switch: 0,
        bytes: ControlBytes::new(&[0x03]),
    };
    for _ in 0..LIMIT - 5 {
        let _answer = net.apply(&question);
    }
}

/// How two workers end where the trace of the switch fills up; and whether they leave one run.
fn end_at_a_full_trace<R: Threads + Wait + Sync>(
    rt: &R,
    alloc: Global,
) -> Option<(Result<(), RunFault>, bool)> {
    let net = almost_full_network(alloc)?;
    let ready = ready_of(alloc, net, 2)?;
    end_of_two::<Brand, R>(rt, alloc, ready)
}

fn end_of_two<N: Naming + Send + Sync, R: Threads + Wait + Sync>(
    rt: &R,
    alloc: Global,
    ready: Ready,
) -> Option<(Result<(), RunFault>, bool)>
    requires { (ready.word_id ≡ N.word) × (handed_of ready.net ≡ N.handed) }
{
    let (fabric, mut seats) = fabric_of::<N>(alloc, ready)?;
    let end = end_of_turns(rt, alloc, &fabric, &mut seats);
    let gathered = fabric.close(seats);
    let is_run = is_run(alloc, &gathered);
    gathered.retire();
    Some((end?, is_run))
}

/// How the turns of a worker for each seat end.
fn end_of_turns<N: Naming + Send + Sync, R: Threads + Wait + Sync>(
    rt: &R,
    alloc: Global,
    fabric: &Fabric<N>,
    seats: &mut Vec<Seat>,
) -> Option<Result<(), RunFault>>
    requires { AreSeatsOf fabric.now.word_id seats.old.items }
    ensures { AreSeatsOf fabric.now.word_id seats.new.items }
{
    if seats.is_empty() {
        return None;
    }
    let seats = seats.as_mut_slice();
    Some(run_workers(alloc, rt, fabric, seats, &OpenGate, Words::Zero, TURNS))
}

/// Workers stop in a turn where the trace of a node is full, and leave one run. It fails where workers do no event, or where
/// each event is answered that it isn't ready: then no trace fills up.
#[test]
fn at_a_full_trace(rt: HostRuntime) {
    let end = end_at_a_full_trace(&rt, rt.alloc());
    assert!(rt; is_full(&end));
}

fn is_full(end: &Option<(Result<(), RunFault>, bool)>) -> bool {
    matches!(
        end,
        Some((Err(RunFault::Event(_, EventFault::TraceFull)), true))
    )
}
