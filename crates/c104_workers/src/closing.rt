//! The end of a fabric: its nodes, and the calls of its seats.
ghost use Rattle.std.specs.{List.Sorted.{IsNonDecreasingBy, IsPermutation}, Prelude.{[], length, map, ◌≡◌, ◌≤◌}, Vec.vec_capacity};
ghost use Rattle.{c104_run.specs.NetParts.node_count, c104_tickets.specs.Counts.{AreNoneTwice, AreOnce}};
ghost use Rattle.c104_workers.specs.Closing.{HoldTracks, PlaceTracks, TellTracks, place_of};
ghost use Rattle.c104_workers.specs.{Fabrics.{AreSeatsOf, all_tickets, calls_of}, OneRuns.{IsLeft, IsOneRun}};

use crate::calls::SeatCalls;
use crate::fabric::{Fabric, Rest};
use crate::held::Held;
use crate::naming::Naming;
use crate::seats::Seat;
use c104_node::{Entry, Node, NodeStart};
use c104_plan::Plan;
use c104_run::Wires;
use c104_tickets::{Pass, TicketWord};
use c104_token::Items;
use std::marker::Model;
use std::sync::Mutex;

/// A node that was taken out of its lock, with its place.
pub(crate) struct Placed {
    place: usize,
    node: Node,
}

/// What a fabric leaves: its nodes, and the calls of each of its seats; and beside them what was known of its network when
/// the fabric was made.
///
/// It can't be dropped, since switches hold claims: `retire` disposes of it.
pub struct Gathered {
    wires: Wires,
    // How many events the network had done: the first ticket.
    pub(crate) first: u64,
    // How many seats the fabric had.
    seat_count: usize,
    // The ticket after the last.
    pub(crate) next: u64,
    nodes: Vec<Node>,
    seats: Vec<SeatCalls>,
    pub(crate) starts: Vec<NodeStart>,
    pub(crate) before: Vec<Items<Entry>>,
}

impl Model for Gathered {
    ghost use Rattle.c104_workers.specs.{Fabrics.Left, OneRuns.{IsLeft, IsOneRun}};

    ghost Value = { Left };

    ghost view = { λ g. record {
      handed = record { plan = g.wires; count = g.first; starts = g.starts.items; before = g.before.items };
      seat_count = g.seat_count;
      next = g.next;
      nodes = g.nodes.items;
      seats = g.seats.items;
    } };

    ghost invariant = { λ g. IsLeft (record {
      handed = record { plan = g.wires; count = g.first; starts = g.starts.items; before = g.before.items };
      seat_count = g.seat_count;
      next = g.next;
      nodes = g.nodes.items;
      seats = g.seats.items;
    }) };
}

impl<N: Naming> Fabric<N> {
    /// Ends the fabric, with the seats of it that are handed in. It takes no memory, and waits for nothing.
    ///
    /// All that was done on its nodes, through whatever seats, is one run: there is one log of it, in the order of
    /// the tickets, which leads from where the nodes stood to where they stand, and of which the calls of each seat are its
    /// part. So the calls of these seats have no ticket twice; where all seats are handed in, they have each ticket once
    /// from the first up to the next, without it.
    pub fn close(self, seats: Vec<Seat>) -> Gathered
        requires { AreSeatsOf self.word_id seats.items }
        ensures handed { result.handed ≡ self.handed }
        ensures nodes { length result.nodes ≡ node_count self.handed.plan }
        ensures seats { result.seats ≡ map calls_of seats.items }
        ensures seat_count { result.seat_count ≡ self.terms.seats }
        ensures one { IsOneRun result }
        ensures none_twice { AreNoneTwice self.terms.first result.next (all_tickets seats.items) }
        ensures each_once { length seats.items ≡ self.terms.seats →
            AreOnce self.terms.first result.next (all_tickets seats.items) }
    {
        // The proof reads here what every plan keeps.
        let _plan = self.plan();
        let Fabric {
            wires,
            word,
            rest,
            seat_count,
            locks,
            room,
            mut nodes,
            mut lists,
            starts,
            before,
        } = self;
        let first = word.first();
        let Rest {
            mut pass,
            naming: _,
        } = rest.into_inner();
        take_nodes(&word, &mut pass, locks, room, &mut nodes);
        let next = gather(word, pass, seats, &mut lists);
        Gathered {
            wires,
            first,
            seat_count,
            next,
            nodes,
            seats: lists,
            starts,
            before,
        }
    }
}

impl Gathered {
    /// The plan of the network.
    pub fn plan(&self) -> &Plan
        ensures plan { result.now ≡ self.now.handed.plan }
        ensures left { IsLeft self.now }
    {
        // The proof reads the rest of what is left by these names.
        let _first = self.first;
        let _seat_count = self.seat_count;
        let _next = self.next;
        let _nodes = self.nodes.as_slice();
        let _seats = self.seats.as_slice();
        let _starts = self.starts.as_slice();
        let _before = self.before.as_slice();
        self.wires.plan()
    }

    /// What each seat left, in the order in which the seats were handed in.
    pub fn seats(&self) -> &[SeatCalls]
        ensures { result.now ≡ self.now.seats }
    {
        self.seats.as_slice()
    }

    /// The nodes: the switches in order, and then the terminals.
    pub fn nodes(&self) -> &[Node]
        ensures { result.now ≡ self.now.nodes }
    {
        self.nodes.as_slice()
    }

    /// Disposes of all.
    pub fn retire(self) {
        let Gathered {
            wires: _,
            first: _,
            seat_count: _,
            next: _,
            mut nodes,
            seats: _,
            starts: _,
            before: _,
        } = self;
        while let Some(node) = nodes.pop() {
            node.retire();
        }
        nodes.destroy_empty();
    }
}

/// The nodes come out of their locks into an empty list with room for them, in the order of their places, and their tracks
/// into the pass. What a type keeps can't tell that a lock's node is that of the lock's place: so they are sorted.
fn take_nodes<N: Naming>(
    word: &TicketWord,
    pass: &mut Pass,
    locks: Vec<Mutex<Held<N>>>,
    room: Vec<Placed>,
    nodes: &mut Vec<Node>,
)
    requires word { (pass.old.word_id ≡ word.now.word_id) × (word.now.word_id ≡ N.word) }
    requires empty { (room.items ≡ []) × (nodes.old.items ≡ []) }
    requires room { (length locks.items ≤ vec_capacity room) × (length locks.items ≤ vec_capacity nodes.old) }
    ensures word { pass.new.word_id ≡ pass.old.word_id }
    ensures nodes { length nodes.new.items ≡ length locks.items }
    ensures held { HoldTracks N.handed nodes.new.items pass.old.view.tracks pass.new.view.tracks }
{
    let mut placed = take_placed(word, pass, locks, room);
    sort_placed(&mut placed);
    while let Some(Placed { place: _, node }) = placed.pop() {
        nodes.push_reserved(node);
    }
    placed.destroy_empty();
    nodes.reverse();
}

/// Sorts nodes that were taken out by their places.
fn sort_placed(placed: &mut Vec<Placed>)
    ensures same { IsPermutation placed.old.items placed.new.items }
    ensures count { length placed.new.items ≡ length placed.old.items }
    ensures rising { IsNonDecreasingBy place_of placed.new.items }
{
    placed.sort_unstable_by_key(|it| it.place);
}

/// The nodes come out of their locks, with their places, into an empty list with room for them, and their tracks into the pass.
fn take_placed<N: Naming>(
    word: &TicketWord,
    pass: &mut Pass,
    mut locks: Vec<Mutex<Held<N>>>,
    mut room: Vec<Placed>,
) -> Vec<Placed>
    requires word { (pass.old.word_id ≡ word.now.word_id) × (word.now.word_id ≡ N.word) }
    requires empty { room.items ≡ [] }
    requires room { length locks.items ≤ vec_capacity room }
    ensures word { pass.new.word_id ≡ pass.old.word_id }
    ensures placed { length result.items ≡ length locks.items }
    ensures held { PlaceTracks N.handed result.items pass.old.view.tracks pass.new.view.tracks }
{
    while let Some(lock) = locks.pop() {
        let (place, node, own) = lock.into_inner().into_parts();
        // The proof reads here what the type of a node keeps.
        let _trace = node.trace();
        word.join(pass, own);
        room.push_reserved(Placed { place, node });
    }
    locks.destroy_empty();
    room
}

/// The ticket after the last; and what each seat leaves joins an empty list with room for all seats of the word.
fn gather(word: TicketWord, mut pass: Pass, mut seats: Vec<Seat>, lists: &mut Vec<SeatCalls>) -> u64
    requires seats { AreSeatsOf word.word_id seats.items }
    requires pass { pass.word_id ≡ word.word_id }
    requires empty { lists.old.items ≡ [] }
    requires room { word.terms.seats ≤ vec_capacity lists.old }
    ensures seats { lists.new.items ≡ map calls_of seats.items }
    ensures closed { TellTracks word.terms result seats.items pass.view.tracks }
{
    while let Some(seat) = seats.pop() {
        let (other, kept) = seat.into_parts();
        word.join(&mut pass, other);
        if lists.len() >= lists.capacity() {
            // A word has no more seats than it was told of.
            let _next = word.close(pass);
            unreachable!();
        }
        lists.push_reserved(kept);
    }
    lists.reverse();
    word.close(pass)
}
