//! Fabrics, their events and workers, and the audit.
ghost use Rattle.std.specs.Prelude.{◌≡◌, ◌≤◌, IfSome, length};
ghost use Rattle.c104_workers.specs.Fabrics.{AreSeatsOf, handed_of};

use crate::calls::{MESH, PLAN, do_all, drop_run, has_come};
use crate::ground::{Ground, Suite, growths_on, is_right_on};
use crate::growths::{Growing, Refusal, Sharing, is_right, is_told};
use crate::outcomes::Outcome;
use c104_event::Event;
use c104_net::Net;
use c104_switch::Reply;
use c104_workers::{
    Fabric, FabricFault, Gathered, Naming, OpenGate, Ready, Seat, Words, run_workers,
};
use std::alloc::Global;
use std::marker::Brand;
use std::sync::Wait;
use std::thread::Threads;

/// How many events of the first run are done before there is a fabric.
const BEFORE: usize = 4;

/// The ground's network, ready for a fabric of two seats.
pub fn ready_of(alloc: Global, ground: Ground<'_>) -> Option<Ready> {
    let net = ground.net(alloc)?;
    match Ready::new(alloc, net, 2) {
        Ok(ready) => Some(ready),
        Err((net, _)) => {
            net.retire();
            None
        }
    }
}

/// The fabric of a network that is ready, and its seats.
pub fn fabric_of<N: Naming>(alloc: Global, ready: Ready) -> Option<(Fabric<N>, Vec<Seat>)>
    requires { (ready.word_id ≡ N.word) × (handed_of ready.net ≡ N.handed) }
    ensures { IfSome result (λ made. AreSeatsOf made.0.word_id made.1.items) }
{
    match ready.into_fabric::<N>(alloc) {
        Ok(made) => Some(made),
        Err((net, _)) => {
            net.retire();
            None
        }
    }
}

/// What a fabric leaves through which nothing is done, of the ground's network after this many events.
pub fn left_after(alloc: Global, ground: Ground<'_>, count: usize) -> Option<Gathered> {
    let net = ground.net_after(alloc, count)?;
    match left_of(alloc, net) {
        Ok(gathered) => Some(gathered),
        Err((net, _)) => {
            net.retire();
            None
        }
    }
}

/// What a fabric of a network leaves through which nothing is done. All memory that it takes is that of the two steps to
/// the fabric.
fn left_of(alloc: Global, net: Net) -> Result<Gathered, (Net, FabricFault)> {
    let ready = Ready::new(alloc, net, 2)?;
    closed::<Brand>(alloc, ready)
}

fn closed<N: Naming>(alloc: Global, ready: Ready) -> Result<Gathered, (Net, FabricFault)>
    requires { (ready.word_id ≡ N.word) × (handed_of ready.net ≡ N.handed) }
{
    let (fabric, seats) = ready.into_fabric::<N>(alloc)?;
    Ok(fabric.close(seats))
}

/// Whether what a fabric left is one run.
pub fn is_run(alloc: Global, gathered: &Gathered) -> bool {
    match gathered.audit(alloc) {
        Ok(run) => {
            drop_run(run);
            true
        }
        Err(_) => false,
    }
}

/// A fabric is made, in two steps. Where either is refused, the network comes back whole: each node has the entries that it
/// had, and the rest of the first run is done on it. It fails where another network comes back, or this one with nodes that
/// have begun anew or lost tokens.
#[derive(Drop)]
struct Making<'a>(Ground<'a>);

impl Growing for Making<'_> {
    fn call(&self, alloc: Global, refusal: Refusal) -> Outcome {
        let Some(net) = self.0.net_after(alloc, BEFORE) else {
            return Outcome::Wrong;
        };
        refusal.begin(alloc);
        let result = left_of(alloc, net);
        refusal.end(alloc);
        match result {
            Ok(gathered) => {
                gathered.retire();
                Outcome::Done
            }
            Err((net, fault)) => {
                let is_same = self.0.is_after(alloc, &net, BEFORE);
                let comes = brings(net, self.0.rest(BEFORE));
                Outcome::of_fault(&fault).if_kept(is_same && comes)
            }
        }
    }
}

/// Whether the rest of the first run brings its packet to b; then the network is retired.
fn brings(mut net: Net, rest: &[Event]) -> bool {
    do_all(&mut net, rest);
    let has_come = has_come(&net);
    net.retire();
    has_come
}

/// The first event of the first run is done through the first seat. Where it is refused, the seat has no call of it, and
/// the event is done then.
#[derive(Drop)]
struct Doing;

impl Sharing for Doing {
    fn call<R: Threads + Wait + Sync>(
        &self,
        rt: &R,
        alloc: Global,
        ground: Ground<'_>,
        refusal: Refusal,
    ) -> Outcome {
        let Some(event) = ground.events.first() else {
            return Outcome::Wrong;
        };
        let Some(ready) = ready_of(alloc, ground) else {
            return Outcome::Wrong;
        };
        done::<Brand, R>(rt, alloc, refusal, ready, event)
    }
}

fn done<N: Naming, R: Wait>(
    rt: &R,
    alloc: Global,
    refusal: Refusal,
    ready: Ready,
    event: &Event,
) -> Outcome
    requires { (ready.word_id ≡ N.word) × (handed_of ready.net ≡ N.handed) }
{
    let Some((fabric, mut seats)) = fabric_of::<N>(alloc, ready) else {
        return Outcome::Wrong;
    };
    let found = match seats.as_mut_slice() {
        [seat, ..] => applied(rt, alloc, refusal, &fabric, seat, event),
        [] => Outcome::Wrong,
    };
    fabric.close(seats).retire();
    found
}

fn applied<N: Naming, R: Wait>(
    rt: &R,
    alloc: Global,
    refusal: Refusal,
    fabric: &Fabric<N>,
    seat: &mut Seat,
    event: &Event,
) -> Outcome
    requires { seat.old.0.word_id ≡ fabric.now.word_id }
    ensures { seat.new.0.word_id ≡ fabric.now.word_id }
{
    refusal.begin(alloc);
    let answer = fabric.apply(rt, seat, event);
    refusal.end(alloc);
    match answer {
        Ok(Reply::NotReady) => Outcome::Wrong,
        Ok(_) => Outcome::Done,
        Err(fault) => {
            let is_empty = seat.calls().is_empty();
            let is_done_then = fabric.apply(rt, seat, event) == Ok(Reply::Done);
            let is_kept = is_empty && is_done_then && seat.calls().len() == 1;
            Outcome::of_fault(&fault).if_kept(is_kept)
        }
    }
}

/// Two workers do turns. Where one is refused a growth, what they did is one run: the events that were done stand. It
/// fails where a call is kept of an event that wasn't done, or a done one isn't kept.
#[derive(Drop)]
struct Working;

impl Sharing for Working {
    fn call<R: Threads + Wait + Sync>(
        &self,
        rt: &R,
        alloc: Global,
        ground: Ground<'_>,
        refusal: Refusal,
    ) -> Outcome {
        match ready_of(alloc, ground) {
            Some(ready) => by_workers::<Brand, R>(rt, alloc, refusal, ready),
            None => Outcome::Wrong,
        }
    }
}

fn by_workers<N: Naming + Send + Sync, R: Threads + Wait + Sync>(
    rt: &R,
    alloc: Global,
    refusal: Refusal,
    ready: Ready,
) -> Outcome
    requires { (ready.word_id ≡ N.word) × (handed_of ready.net ≡ N.handed) }
{
    let Some((fabric, mut seats)) = fabric_of::<N>(alloc, ready) else {
        return Outcome::Wrong;
    };
    if seats.is_empty() {
        fabric.close(seats).retire();
        return Outcome::Wrong;
    }
    let found = worked(rt, alloc, refusal, &fabric, seats.as_mut_slice());
    let gathered = fabric.close(seats);
    let is_run = is_run(alloc, &gathered);
    gathered.retire();
    if is_run { found } else { Outcome::Wrong }
}

fn worked<N: Naming + Send + Sync, R: Threads + Wait + Sync>(
    rt: &R,
    alloc: Global,
    refusal: Refusal,
    fabric: &Fabric<N>,
    seats: &mut [Seat],
) -> Outcome
    requires some { 1 ≤ length seats.old }
    requires own { AreSeatsOf fabric.now.word_id seats.old }
    ensures own { AreSeatsOf fabric.now.word_id seats.new }
{
    refusal.begin(alloc);
    let end = run_workers(alloc, rt, fabric, seats, &OpenGate, Words::Zero, 2);
    refusal.end(alloc);
    Outcome::of(end)
}

/// What is done with what a fabric left.
#[derive(Clone, Copy)]
enum Look {
    /// It is listed.
    Lists,
    /// It is audited.
    Audit,
}

/// What a fabric left is looked at.
#[derive(Drop)]
struct Looking<'a>(&'a Gathered, Look);

impl Growing for Looking<'_> {
    fn call(&self, alloc: Global, refusal: Refusal) -> Outcome {
        match self.1 {
            Look::Lists => listed(alloc, refusal, self.0),
            Look::Audit => audited(alloc, refusal, self.0),
        }
    }
}

fn listed(alloc: Global, refusal: Refusal, gathered: &Gathered) -> Outcome {
    refusal.begin(alloc);
    let result = gathered.lists(alloc);
    refusal.end(alloc);
    Outcome::of(result)
}

fn audited(alloc: Global, refusal: Refusal, gathered: &Gathered) -> Outcome {
    refusal.begin(alloc);
    let result = gathered.audit(alloc);
    refusal.end(alloc);
    match result {
        Ok(run) => {
            drop_run(run);
            Outcome::Done
        }
        Err(fault) => Outcome::of_fault(&fault),
    }
}

/// Fabrics of the first run's network, and what they leave.
#[derive(Drop)]
struct FabricCalls;

impl Suite for FabricCalls {
    fn is_right(&self, rt: &HostRuntime, ground: Ground<'_>) -> bool {
        is_right(rt, "Ready::new, Ready::into_fabric", &Making(ground))
            && are_looks_right(rt, ground)
    }
}

fn are_looks_right(rt: &HostRuntime, ground: Ground<'_>) -> bool {
    let Some(gathered) = left_after(rt.alloc(), ground, BEFORE) else {
        return false;
    };
    let are_right = is_right(rt, "Gathered::lists", &Looking(&gathered, Look::Lists))
        && is_right(rt, "Gathered::audit", &Looking(&gathered, Look::Audit));
    gathered.retire();
    are_right
}

#[test]
fn fabrics(rt: HostRuntime) {
    assert!(rt; is_right_on(&rt, PLAN, &FabricCalls));
}

#[test]
fn events(rt: HostRuntime) {
    let growths = growths_on(&rt, rt.alloc(), PLAN, &Doing);
    assert!(rt; is_told(&rt, "Fabric::apply", growths));
}

#[test]
fn workers(rt: HostRuntime) {
    let growths = growths_on(&rt, rt.alloc(), MESH, &Working);
    assert!(rt; is_told(&rt, "run_workers", growths));
}
