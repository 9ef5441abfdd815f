//! The end of a shared network: the network that its nodes are again.
ghost use Rattle.std.specs.{List.Sorted.{IsNonDecreasingBy, IsPermutation}, Prelude.{[], length, ◌≡◌, ◌≤◌}, Vec.vec_capacity};
ghost use Rattle.c104_lean.specs.{Closing.{HoldTracks, PlaceTracks, TellTracks, place_of}, Runs.IsSharedRun, Seats.{AreAllSeats, AreSeatsOf}};
ghost use Rattle.c104_lean.specs.Shared.{record_of};

use crate::held::HeldNode;
use crate::seats::CountedSeat;
use crate::shared_net::{Rest, SharedNet};
use crate::sharing::Sharing;
use c104_net::TracedNet;
use c104_node::CountedNode;
use c104_tickets::{DeedLog, Pass};
use std::sync::Mutex;

/// A node that was taken out of its lock, with its place.
pub(crate) struct Placed {
    place: usize,
    node: CountedNode,
}

impl<N: Sharing> SharedNet<N> {
    /// Ends the sharing, with all seats by their numbers, and gives the network. It takes no memory, and waits for nothing.
    ///
    /// All that was done on its nodes is one run: there is one log of it, in the order of the tickets, by whose events the
    /// network comes from what it was to what it is, as if one thread had applied them, and of which the calls of each seat
    /// are its part.
    pub fn close(self, seats: Vec<CountedSeat>) -> TracedNet
        requires own { AreSeatsOf self.word_id seats.items }
        requires all { AreAllSeats self.terms seats.items }
        ensures { IsSharedRun (record_of self.before) result self.terms.seats seats.items }
    {
        // The proof reads here what every plan keeps.
        let _plan = self.plan();
        let SharedNet {
            wires,
            log,
            rest,
            locks,
            parts: _,
            room,
            mut nodes,
        } = self;
        let Rest {
            mut pass,
            sharing: _,
        } = rest.into_inner();
        take_nodes(&log, &mut pass, locks, room, &mut nodes);
        let next = gather(log, pass, seats);
        TracedNet::of_parts(wires, nodes, next)
    }
}

/// The nodes come out of their locks into an empty list with room for them, in the order of their places, and their tracks
/// into the pass. What a type keeps can't tell that a lock's node is that of the lock's place: so they are sorted.
fn take_nodes<N: Sharing>(
    log: &DeedLog,
    pass: &mut Pass,
    locks: Vec<Mutex<HeldNode<N>>>,
    room: Vec<Placed>,
    nodes: &mut Vec<CountedNode>,
)
    requires word { (pass.old.word_id ≡ log.now.word_id) × (log.now.word_id ≡ N.word) }
    requires empty { (room.items ≡ []) × (nodes.old.items ≡ []) }
    requires room { (length locks.items ≤ vec_capacity room) × (length locks.items ≤ vec_capacity nodes.old) }
    ensures word { pass.new.word_id ≡ pass.old.word_id }
    ensures nodes { length nodes.new.items ≡ length locks.items }
    ensures held { HoldTracks N.before nodes.new.items pass.old.view.tracks pass.new.view.tracks }
{
    let mut placed = take_placed(log, pass, locks, room);
    sort_placed(&mut placed);
    while let Some(Placed { place: _, node }) = placed.pop() {
        nodes.push_reserved(node);
    }
    placed.destroy_empty();
    nodes.reverse();
}

/// Sorts nodes that were taken out by their places.
fn sort_placed(placed: &mut Vec<Placed>)
    ensures same { IsPermutation placed.old.items placed.new.items }
    ensures count { length placed.new.items ≡ length placed.old.items }
    ensures rising { IsNonDecreasingBy place_of placed.new.items }
{
    placed.sort_unstable_by_key(|it| it.place);
}

/// The nodes come out of their locks, with their places, into an empty list with room for them, and their tracks into the pass.
fn take_placed<N: Sharing>(
    log: &DeedLog,
    pass: &mut Pass,
    mut locks: Vec<Mutex<HeldNode<N>>>,
    mut room: Vec<Placed>,
) -> Vec<Placed>
    requires word { (pass.old.word_id ≡ log.now.word_id) × (log.now.word_id ≡ N.word) }
    requires empty { room.items ≡ [] }
    requires room { length locks.items ≤ vec_capacity room }
    ensures word { pass.new.word_id ≡ pass.old.word_id }
    ensures placed { length result.items ≡ length locks.items }
    ensures held { PlaceTracks N.before result.items pass.old.view.tracks pass.new.view.tracks }
{
    while let Some(lock) = locks.pop() {
        let (place, node, own) = lock.into_inner().into_parts();
        log.join(pass, own);
        room.push_reserved(Placed { place, node });
    }
    locks.destroy_empty();
    room
}

/// The ticket after the last, when the passes of all seats are joined: as many behind the first as the seats did.
fn gather(log: DeedLog, mut pass: Pass, mut seats: Vec<CountedSeat>) -> u64
    requires seats { AreSeatsOf log.word_id seats.items }
    requires count { length seats.items ≡ log.terms.seats }
    requires pass { pass.word_id ≡ log.word_id }
    ensures { TellTracks log.terms result seats.items pass.view.tracks }
{
    let mut next = log.first();
    while let Some(seat) = seats.pop() {
        next += seat.count();
        log.join(&mut pass, seat.into_pass());
    }
    log.close(pass);
    next
}
