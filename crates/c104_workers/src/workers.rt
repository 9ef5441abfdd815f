//! Workers: threads that do the parts of rounds, each through a seat of its own.
//!
//! The fault that is answered is looked up in the seats, and is that of the lowest worker, whichever stopped first. One
//! that is out of memory between events stops with NoMemory, as at an event.
ghost use Rattle.{c104_switch.specs.Actions.is_ready, c104_turns.specs.{Calls.SeatView, Working.{EndsAs, HasWorked, IsPartEvent, IsStop}}};
ghost use Rattle.c104_workers.specs.Fabrics.{AreSeatsOf};
ghost use Rattle.std.specs.Prelude.{All, IfErr, IfOk, IfSome, MatchBool, length, map, slice_index_or, ℕ, ◌%◌, ◌<◌, ◌≡◌, ◌≢◌, ◌≤◌};

use crate::fabric::Fabric;
use crate::gates::Gate;
use crate::naming::Naming;
use crate::seats::Seat;
use c104_event::{Event, EventFault};
use c104_switch::{Reply, ReplyOf};
use c104_token::NoMemory;
use c104_turns::{NodePort, Part, PartPort, RunFault, Stage, Words, Worker, do_turns};
use std::alloc::Global;
use std::sync::Wait;
use std::thread::{Threads, for_each_mut};

/// Does turns on a fabric by workers, each in a thread of its own: worker 0 through the first of these seats, and so on.
/// Where no thread can be made, the workers run one after another. Of n workers number i has the nodes k with
/// k mod n = i. In a turn it does the part that a round has for each of these nodes, by their numbers: it asks the node
/// which of these events it is ready for, and does these in turn, the turn of an input with a word of the worker's. The gate
/// is asked before the turn, and inside each event of the part, done or not. A worker stops at its first event that is
/// refused; an event that isn't ready is none.
///
/// There is at least one seat. What was done stays done.
pub fn run_workers<R: Threads + Wait + Sync, G: Gate + Sync, N: Naming + Send + Sync>(
    alloc: Global,
    rt: &R,
    fabric: &Fabric<N>,
    seats: &mut [Seat],
    gate: &G,
    words: Words,
    turns: u64,
) -> Result<(), RunFault>
    requires some { 1 ≤ length seats.old }
    requires own { AreSeatsOf fabric.now.word_id seats.old }
    ensures own { AreSeatsOf fabric.now.word_id seats.new }
    ensures worked { (i : ℕ) (d : SeatView × ℕ) → i < length seats.old → HasWorked fabric.now.handed.plan words (length seats.old) i
        (slice_index_or seats.old i d).0 (slice_index_or seats.new i d).0 }
    ensures stops { (i : ℕ) (d : SeatView × ℕ) → i < length seats.old →
        IfSome (slice_index_or seats.new i d).0.stopped (IsStop fabric.now.handed.plan words (length seats.old) i) }
    ensures end { EndsAs seats.new result }
{
    let count = seats.len();
    for_each_mut(
        rt,
        seats,
        count,
        &|number: usize, seat: &mut Seat|
            requires { (1 ≤ count) × (seat.now.0.word_id ≡ fabric.now.word_id) }
            ensures { HasWorked fabric.entry.now.handed.plan words count number seat.entry.now.0 seat.exit.now.0
                × IfSome seat.exit.now.0.stopped (IsStop fabric.entry.now.handed.plan words count number) }
        {
            let own = FabricWorker {
                rt,
                fabric,
                gate,
                worker: Worker {
                    number,
                    words,
                    times: 1,
                },
                count,
            };
            own.work(alloc, seat, turns);
        },
    );
    end_of(seats)
}

/// Why workers stopped, each of which used one of these seats.
fn end_of(seats: &[Seat]) -> Result<(), RunFault>
    ensures { EndsAs seats.now result }
{
    for number in 0..seats.len() {
        if let Some(fault) = seats[number].stopped() {
            return Err(RunFault::Event(number, fault));
        }
    }
    Ok(())
}

/// One of several workers of a fabric.
#[derive(Drop)]
struct FabricWorker<'a, R: Wait, G: Gate, N: Naming> {
    rt: &'a R,
    fabric: &'a Fabric<N>,
    gate: &'a G,
    worker: Worker,
    // How many there are.
    count: usize,
}

impl<R: Wait, G: Gate, N: Naming> FabricWorker<'_, R, G, N> {
    /// Does turns through a seat, which keeps why the worker stopped.
    fn work(&self, alloc: Global, seat: &mut Seat, turns: u64)
        requires some { 1 ≤ self.now.count }
        requires word { seat.old.0.word_id ≡ self.now.fabric.now.word_id }
        ensures worked { HasWorked self.now.fabric.now.handed.plan self.now.worker.words self.now.count self.now.worker.number
            seat.old.0 seat.new.0 }
        ensures stops { IfSome seat.new.0.stopped
            (IsStop self.now.fabric.now.handed.plan self.now.worker.words self.now.count self.now.worker.number) }
    {
        let end = self.do_own_turns(alloc, seat, turns);
        seat.stop(end.err());
    }

    /// Does turns, up to the first event that is refused.
    fn do_own_turns(&self, alloc: Global, seat: &mut Seat, turns: u64) -> Result<(), EventFault>
        requires some { 1 ≤ self.now.count }
        requires word { seat.old.0.word_id ≡ self.now.fabric.now.word_id }
        ensures worked { HasWorked self.now.fabric.now.handed.plan self.now.worker.words self.now.count self.now.worker.number
            seat.old.0 seat.new.0 }
        ensures stops { IfErr result
            (IsStop self.now.fabric.now.handed.plan self.now.worker.words self.now.count self.now.worker.number) }
    {
        let own = self.own_parts(alloc)?;
        let parts = lent(alloc, &own)?;
        let mut ready = Vec::new(alloc);
        let mut port = WorkerPort { own: self, seat };
        do_turns(&mut port, &parts, turns, u64::MAX, &mut ready)
    }

    /// The parts that a round has for the worker's nodes. The only error is out of memory.
    fn own_parts(&self, alloc: Global) -> Result<Vec<Part>, NoMemory>
        requires some { 1 ≤ self.now.count }
        ensures { IfOk result (λ parts.
            All (λ part. All (IsPartEvent self.now.fabric.now.handed.plan self.now.count self.now.worker.number)
            part.events) parts.items) }
    {
        let mut parts = Vec::new(alloc);
        for node in 0..self.fabric.node_count() {
            if self.owns(node) {
                parts.push(Part::of_round(alloc, self.fabric.wires(), node)?)?;
            }
        }
        Ok(parts)
    }

    /// Whether a node is one of the worker's own.
    fn owns(&self, node: usize) -> bool
        requires { 1 ≤ self.now.count }
        ensures { MatchBool result (node % self.now.count ≡ self.now.worker.number)
            (node % self.now.count ≢ self.now.worker.number) }
    {
        node % self.count == self.worker.number
    }
}

/// These parts, to be lent. The only error is out of memory.
fn lent<'a>(alloc: Global, parts: &'a [Part]) -> Result<Vec<&'a Part>, NoMemory>
    ensures { IfOk result (λ lent. map (λ part. part.now) lent.items ≡ parts.now) }
{
    let mut lent = Vec::new(alloc);
    for part in parts {
        lent.push(part)?;
    }
    Ok(lent)
}

/// A worker with a seat of its own, as the port through which it does the parts of its nodes. Others may act on these nodes
/// between two of its events.
#[derive(Drop)]
struct WorkerPort<'a, R: Wait, G: Gate, N: Naming> {
    own: &'a FabricWorker<'a, R, G, N>,
    seat: &'a mut Seat,
    ghost word: { seat.now.0.word_id ≡ own.now.fabric.now.word_id },
}

impl<R: Wait, G: Gate, N: Naming> NodePort for WorkerPort<'_, R, G, N> {
    ghost use Rattle.c104_turns.specs.Working.{HasDone};
    ghost use Rattle.std.specs.Prelude.{length, ◌≡◌};

    ghost done = { λ p. length p.seat.now.0.calls };

    ghost lists = { λ p part stage numbers. Unit {0} };

    // It stays a port through the same reference, so that who lent the seat knows what became of it.
    ghost due = { λ p event answer after.
        (after.seat.ghost_name ≡ p.seat.ghost_name) × (after.own.now ≡ p.own.now)
        × HasDone p.own.now.fabric.now.handed.plan p.seat.now.0 after.seat.now.0 event answer };

    fn count(&self) -> usize {
        self.seat.calls().len()
    }

    fn list_ready(
        &self,
        part: &Part,
        stage: Stage,
        ready: &mut Vec<usize>,
    ) -> Result<(), NoMemory> {
        let own = self.own;
        own.fabric
            .list_ready(own.rt, part, stage, ready, own.gate, own.worker.number)
    }

    fn apply(&mut self, event: &Event) -> Result<bool, EventFault> {
        let own = self.own;
        let reply = own
            .fabric
            .apply_by_worker(own.rt, self.seat, event, own.gate, own.worker.number)?;
        Ok(is_done(&reply))
    }
}

/// Whether an event was done that has this reply.
fn is_done(reply: &Reply) -> bool
    ensures { result ≡ is_ready reply.now }
{
    !matches!(reply, ReplyOf::NotReady)
}

impl<R: Wait, G: Gate, N: Naming> PartPort for WorkerPort<'_, R, G, N> {
    ghost use Rattle.c104_turns.specs.Working.{HasWorked, IsPartEvent, IsStop};
    ghost use Rattle.std.specs.Prelude.{All, IfErr, length, ◌≡◌};

    ghost done = { λ p. length p.seat.now.0.calls };

    ghost due = { λ p part end after.
        All (IsPartEvent p.own.now.fabric.now.handed.plan p.own.now.count p.own.now.worker.number) part.events →
        (after.seat.ghost_name ≡ p.seat.ghost_name) × (after.own.now ≡ p.own.now)
        × HasWorked p.own.now.fabric.now.handed.plan p.own.now.worker.words p.own.now.count p.own.now.worker.number
        p.seat.now.0 after.seat.now.0
        × IfErr end (IsStop p.own.now.fabric.now.handed.plan p.own.now.worker.words p.own.now.count p.own.now.worker.number) };

    fn count(&self) -> usize {
        self.seat.calls().len()
    }

    fn begin(&self, turn: u64) {
        self.own.gate.before(self.own.worker.number, turn);
    }

    fn rest(&self) {}

    fn do_part(&mut self, part: &Part, ready: &mut Vec<usize>) -> Result<(), EventFault> {
        let worker = self.own.worker;
        worker.do_part(self, part, ready)
    }
}
