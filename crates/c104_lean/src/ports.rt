//! What a worker does events through: a node that it has locked, and the whole shared network.
ghost use Rattle.std.specs.Prelude.{ℕ, ◌≡◌};
ghost use Rattle.c104_lean.specs.Ports.{DidPart};

use crate::held::HeldNode;
use crate::seats::CountedSeat;
use crate::shared_net::SharedNet;
use crate::sharing::Sharing;
use c104_event::{Event, EventFault};
use c104_node::Place;
use c104_token::NoMemory;
use c104_turns::{NodePort, Part, PartPort, Stage, Worker};
use std::thread::yield_now;

/// How often others may run between two turns that do nothing.
const YIELDS: u32 = 2;

/// A locked node with a worker's seat. What isn't ready at the far end of a wire, or is with another worker, isn't ready.
#[derive(Drop)]
struct HeldPort<'a, N: Sharing> {
    shared: &'a SharedNet<N>,
    seat: &'a mut CountedSeat,
    held: &'a mut HeldNode<N>,
    ghost own: { seat.now.word_id ≡ shared.now.word_id },
}

impl<N: Sharing> NodePort for HeldPort<'_, N> {
    ghost use Rattle.std.specs.Prelude.{length, ◌≡◌};
    ghost use Rattle.c104_lean.specs.Ports.{DidEvent, MayList};

    ghost done = { λ p. length p.seat.now.calls };

    ghost lists = { λ p part stage numbers. MayList p.held.now part stage numbers };

    // It stays a port through the same seat, so that who lent it knows what became of it.
    ghost due = { λ p event answer after.
        (after.seat.ghost_name ≡ p.seat.ghost_name) × DidEvent N.before.plan p.seat.now event answer after.seat.now };

    fn count(&self) -> usize {
        self.seat.count() as usize
    }

    fn list_ready(
        &self,
        part: &Part,
        stage: Stage,
        ready: &mut Vec<usize>,
    ) -> Result<(), NoMemory> {
        ready.clear();
        let held: &HeldNode<N> = self.held;
        part.add_ready(Place::node(&held.node), stage, ready)
    }

    fn apply(&mut self, event: &Event) -> Result<bool, EventFault> {
        // The proof reads by this name how the network stood.
        let shared: &SharedNet<N> = self.shared;
        let _log = &shared.log;
        self.shared.do_event(self.seat, self.held, event)
    }
}

/// A shared network with the seat of one of its workers.
#[derive(Drop)]
pub(crate) struct SharedPort<'a, N: Sharing> {
    pub(crate) shared: &'a SharedNet<N>,
    pub(crate) seat: &'a mut CountedSeat,
    pub(crate) worker: Worker,
    ghost own: { seat.now.word_id ≡ shared.now.word_id },
}

impl<N: Sharing> PartPort for SharedPort<'_, N> {
    ghost use Rattle.std.specs.Prelude.{length, ℕ, ◌≡◌};
    ghost use Rattle.c104_lean.specs.Ports.{DidPart};

    ghost done = { λ p. length p.seat.now.calls };

    // It stays a port of the same worker, through the same seat.
    ghost due = { λ p part end after.
        (after.seat.ghost_name ≡ p.seat.ghost_name) × (after.worker ≡ p.worker)
        × ((count : ℕ) → DidPart N.before.plan p.worker count part p.seat.now end after.seat.now) };

    fn count(&self) -> usize {
        self.seat.count() as usize
    }

    fn begin(&self, _turn: u64) {}

    fn rest(&self) {
        // What it waits for is with a worker that may not be running.
        let_others_run();
    }

    /// Where another has the node, nothing is done.
    fn do_part(&mut self, part: &Part, ready: &mut Vec<usize>) -> Result<(), EventFault> {
        let Some(lock) = self.shared.lock_of(part) else {
            return Ok(());
        };
        let Some(mut held) = lock.try_lock() else {
            return Ok(());
        };
        if part.is_idle(Place::node(&held.node)) {
            return Ok(());
        }
        do_held(self.shared, self.seat, &mut held, self.worker, part, ready)
    }
}

/// Does the part of a locked node through a worker's seat, up to the first event that is refused.
fn do_held<N: Sharing>(
    shared: &SharedNet<N>,
    seat: &mut CountedSeat,
    held: &mut HeldNode<N>,
    worker: Worker,
    part: &Part,
    ready: &mut Vec<usize>,
) -> Result<(), EventFault>
    requires word { seat.old.word_id ≡ shared.now.word_id }
    ensures done { (count : ℕ) → DidPart N.before.plan worker count part.now seat.old result seat.new }
    ensures word { seat.new.word_id ≡ shared.now.word_id }
{
    let mut port = HeldPort { shared, seat, held };
    worker.do_part(&mut port, part, ready)
}

/// Lets other threads run for a while.
fn let_others_run() {
    for _time in 0..YIELDS {
        yield_now();
    }
}
