//! Workers: threads that do the parts of rounds, each through a seat of its own.
//!
//! The fault that is answered is looked up in the seats, and is that of the lowest worker, whichever stopped first. One
//! that is out of memory between events stops with NoMemory, as at an event.
//!
//! What costs time where several threads work is memory that another one wrote last. So neighbours in the list of switches have
//! one worker, a node is locked once for its part, and a wire's far end once for all that crosses it then.
ghost use Rattle.c104_lean.specs.{Seats.AreSeatsOf, Workers.CountedEndsAs, Working.{HasWorked, IsPartEvent, IsStop, worker_of}};
ghost use Rattle.c104_turns.specs.Calls.{SeatView};
ghost use Rattle.std.specs.Prelude.{All, IfErr, IfOk, IfSome, MatchBool, length, slice_index_or, ℕ, ◌<◌, ◌≡◌, ◌≢◌, ◌≤◌};

use crate::ports::SharedPort;
use crate::seats::CountedSeat;
use crate::shared_net::SharedNet;
use crate::sharing::Sharing;
use c104_event::EventFault;
use c104_token::NoMemory;
use c104_turns::{Part, RunFault, Words, do_turns};
use std::alloc::Global;
use std::sync::Wait;
use std::thread::{Threads, for_each_mut};

/// After how many turns in a row that do nothing a worker does no more. Those that go on wait for it then: so it is far more
/// than a neighbour needs for a turn.
const IDLE_TURNS: u64 = 512;

/// How often an event is done while its node is locked, at most: an output buffer has no more tokens.
pub(crate) const MOST_TIMES: u32 = 8;

/// Does turns on a shared network by workers, each in a thread of its own: worker 0 through the first of these seats, and so
/// on. Where no thread can be made, the workers run one after another. Each has a run of switches, and the terminals at these.
/// In a turn it does the part that a round has for each of these nodes, by their numbers, unless another has the node then:
/// it asks the node which of these events it may be ready for, and does each of these as long as the node is ready, but 8 times
/// at most, the turn of an input with a word of the worker's. A worker stops at its first event that is refused; an event that
/// isn't ready is none. Where 512 turns in a row do nothing, it does no more of them.
///
/// There is at least one seat. What was done stays done.
pub fn run_workers<R: Threads + Wait + Sync, N: Sharing + Send + Sync>(
    alloc: Global,
    rt: &R,
    shared: &SharedNet<N>,
    seats: &mut [CountedSeat],
    words: Words,
    turns: u64,
) -> Result<(), RunFault>
    requires some { 1 ≤ length seats.old }
    requires own { AreSeatsOf shared.now.word_id seats.old }
    ensures own { AreSeatsOf shared.now.word_id seats.new }
    ensures worked { (i : ℕ) (d : SeatView) → i < length seats.old → HasWorked shared.now.before.plan words (length seats.old) i
        (slice_index_or seats.old i d) (slice_index_or seats.new i d) }
    ensures stops { (i : ℕ) (d : SeatView) → i < length seats.old →
        IfSome (slice_index_or seats.new i d).stopped (IsStop shared.now.before.plan words (length seats.old) i) }
    ensures end { CountedEndsAs seats.new result }
{
    let count = seats.len();
    for_each_mut(
        rt,
        seats,
        count,
        &|number: usize, seat: &mut CountedSeat|
            requires { seat.now.word_id ≡ shared.now.word_id }
            ensures { HasWorked shared.entry.now.before.plan words count number seat.entry.now seat.exit.now
                × IfSome seat.exit.now.stopped (IsStop shared.entry.now.before.plan words count number) }
        {
            let worker = Worker {
                shared,
                words,
                number,
                count,
            };
            worker.work(alloc, seat, turns);
        },
    );
    end_of(seats)
}

/// Why workers stopped, each of which used one of these seats.
fn end_of(seats: &[CountedSeat]) -> Result<(), RunFault>
    ensures { CountedEndsAs seats.now result }
{
    for number in 0..seats.len() {
        if let Some(fault) = seats[number].stopped() {
            return Err(RunFault::Event(number, fault));
        }
    }
    Ok(())
}

/// One of several workers.
#[derive(Drop)]
struct Worker<'a, N: Sharing> {
    shared: &'a SharedNet<N>,
    words: Words,
    number: usize,
    // How many there are.
    count: usize,
}

impl<N: Sharing> Worker<'_, N> {
    /// Does turns through a seat, which keeps why the worker stopped.
    fn work(&self, alloc: Global, seat: &mut CountedSeat, turns: u64)
        requires word { seat.old.word_id ≡ self.now.shared.now.word_id }
        ensures worked { HasWorked self.now.shared.now.before.plan self.now.words self.now.count self.now.number seat.old seat.new }
        ensures stops { IfSome seat.new.stopped
            (IsStop self.now.shared.now.before.plan self.now.words self.now.count self.now.number) }
    {
        let end = self.do_turns(alloc, seat, turns);
        seat.stop(end.err());
    }

    /// Does turns, up to the first event that is refused, or as long as some of them do something.
    fn do_turns(&self, alloc: Global, seat: &mut CountedSeat, turns: u64) -> Result<(), EventFault>
        requires word { seat.old.word_id ≡ self.now.shared.now.word_id }
        ensures worked { HasWorked self.now.shared.now.before.plan self.now.words self.now.count self.now.number seat.old seat.new }
        ensures stops { IfErr result (IsStop self.now.shared.now.before.plan self.now.words self.now.count self.now.number) }
    {
        let parts = self.own_parts(alloc)?;
        // The proof reads by this name how the network stood.
        let shared: &SharedNet<N> = self.shared;
        let _log = &shared.log;
        let mut ready = Vec::new(alloc);
        let mut port = SharedPort {
            shared,
            seat,
            worker: c104_turns::Worker {
                number: self.number,
                words: self.words,
                times: MOST_TIMES,
            },
        };
        do_turns(&mut port, parts.as_slice(), turns, IDLE_TURNS, &mut ready)
    }

    /// The parts of the worker's own nodes. The only error is out of memory.
    fn own_parts(&self, alloc: Global) -> Result<Vec<&Part>, NoMemory>
        ensures { IfOk result (λ parts.
            All (λ part. All (IsPartEvent self.now.shared.now.before.plan self.now.count self.now.number) part.now.events)
            parts.items) }
    {
        let mut own = Vec::new(alloc);
        for part in self.shared.parts() {
            if self.owner(part.node()) == self.number {
                own.push(part)?;
            }
        }
        Ok(own)
    }

    /// The worker that has the node at a place.
    fn owner(&self, node: usize) -> usize
        ensures { result ≡ worker_of self.now.shared.now.before.plan self.now.count node }
    {
        let plan = self.shared.plan();
        let switches = plan.switches().len();
        let home = if node < switches {
            node
        } else {
            match plan.terminals().get(node - switches) {
                Some(terminal) => terminal.switch,
                None => 0,
            }
        };
        home.saturating_mul(self.count) / switches.max(1)
    }
}
