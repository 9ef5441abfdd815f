//! A fabric of a network, with its seats.
//!
//! The network is taken apart last, when all memory is there: so one that is refused is given back itself. A copy of
//! where its nodes started, and of what they had done, stays with the fabric. It is made in two steps, since the type of
//! what lies behind the locks names the word of tickets, which has to be there before.
ghost use Rattle.{c104_node.specs.Records.{node_start, node_trace}, c104_run.specs.NetParts.node_count};
ghost use Rattle.c104_tickets.specs.{Tickets.{first_view, place_tracks, seat_tracks}, declared.TheConstants.{FIRST_LIMIT, SEAT_LIMIT}};
ghost use Rattle.{c104_turns.specs.FirstSeats.{IsSeatCount, fabric_fault, first_seats}, c104_workers.specs.Fabrics.{AreSeatsOf, handed_of}};
ghost use Rattle.c104_workers.specs.Fabrics.{seat_view, terms_of};
ghost use Rattle.std.specs.{Prelude.{IfOk, MatchResult, [], length, map, ◌++◌, ◌≡◌, ◌≤◌}, Vec.vec_capacity};
ghost use Rattle.c104_turns.specs.declared.faults.FabricFault.TheVariants as fabric_fault_of;

use crate::calls::SeatCalls;
use crate::closing::Placed;
use crate::fabric::{Fabric, Rest};
use crate::held::Held;
use crate::naming::Naming;
use crate::seats::Seat;
use c104_node::{Entry, Node, NodeStart};
use c104_run::Net;
use c104_tickets::{Pass, SEAT_LIMIT, Terms, TicketWord};
use c104_token::{Items, NoMemory as OutOfMemory};
use c104_turns::FabricFault;
use std::alloc::Global;
use std::marker::{Model, PhantomData};
use std::sync::Mutex;

/// A network of which a fabric may be made, with its word of tickets, and what the fabric will have beside the nodes.
///
/// It can't be dropped, since switches hold claims.
pub struct Ready {
    net: Net,
    terms: Terms,
    word: TicketWord,
    pass: Pass,
    lists: Vec<SeatCalls>,
    seats: Vec<Seat>,
    copies: Copies,
}

impl Model for Ready {
    ghost use Rattle.{c104_tickets.specs.Tickets.first_view, c104_turns.specs.FirstSeats.IsSeatCount, c104_workers.specs.Fabrics.ReadyView};
    ghost use Rattle.c104_workers.specs.Fabrics.{terms_of};
    ghost use Rattle.std.specs.{Prelude.{[], ◌≡◌, ◌≤◌}, Vec.vec_capacity};

    ghost Value = { ReadyView };

    ghost view = { λ r. record { net = r.net; word_id = r.word.word_id; terms = r.terms } };

    ghost invariant = { λ r.
        (r.terms ≡ terms_of r.net r.terms.seats) × IsSeatCount r.terms.seats
        × (r.word.terms ≡ r.terms) × (r.pass.word_id ≡ r.word.word_id) × (r.pass.view ≡ first_view r.terms)
        × (r.lists.items ≡ []) × (r.terms.seats ≤ vec_capacity r.lists)
        × (r.seats.items ≡ []) × (r.terms.seats ≤ vec_capacity r.seats)
        × (r.copies.starts.items ≡ r.net.starts) × (r.copies.before.items ≡ r.net.traces) };
}

/// Where nodes started, and what they did since.
#[derive(Drop)]
struct Copies {
    starts: Vec<NodeStart>,
    before: Vec<Items<Entry>>,
}

impl Ready {
    /// Makes ready for a fabric of a network with this many seats, 1 to 64. SeatCount where there are to be others; else the only
    /// error is out of memory. Then the network is given back as it was.
    pub fn new(alloc: Global, net: Net, seats: usize) -> Result<Ready, (Net, FabricFault)>
        ensures net { MatchResult result
            (λ ready. ready.net ≡ net)
            (λ refused. refused.0 ≡ net) }
        ensures terms { MatchResult result
            (λ ready. ready.terms ≡ terms_of net seats)
            (λ _. Unit {0}) }
        ensures fault { MatchResult result
            (λ _. IsSeatCount seats)
            (λ refused. refused.1 ≡ fabric_fault seats) }
    {
        if seats == 0 || seats as u64 > SEAT_LIMIT {
            return Err((net, FabricFault::SeatCount));
        }
        let terms = Terms {
            first: net.count(),
            seats: seats as u64,
            places: net.places().len() as u64,
        };
        match room_for(alloc, &net, terms) {
            Err(_) => Err((net, FabricFault::NoMemory)),
            Ok(
                Room {
                    word,
                    pass,
                    lists,
                    seats,
                    copies,
                },
            ) => Ok(Ready {
                net,
                terms,
                word,
                pass,
                lists,
                seats,
                copies,
            }),
        }
    }

    /// The fabric, and its seats by their numbers from 0 on, each with no call yet. The only error is out of memory; then the
    /// network is given back as it was.
    pub fn into_fabric<N: Naming>(
        self,
        alloc: Global,
    ) -> Result<(Fabric<N>, Vec<Seat>), (Net, FabricFault)>
        requires word { self.word_id ≡ N.word }
        requires handed { handed_of self.net ≡ N.handed }
        ensures handed { MatchResult result
            (λ made. made.0.handed ≡ handed_of self.net)
            (λ refused. refused.0 ≡ self.net) }
        ensures word { MatchResult result
            (λ made. (made.0.word_id ≡ self.word_id) × (made.0.terms ≡ self.terms))
            (λ refused. refused.1 ≡ fabric_fault_of.NoMemory) }
        ensures seats { MatchResult result
            (λ made. map seat_view made.1.items ≡ first_seats made.0.word_id made.0.terms)
            (λ _. Unit {0}) }
        ensures own { MatchResult result
            (λ made. AreSeatsOf made.0.word_id made.1.items)
            (λ _. Unit {0}) }
    {
        let Ready {
            net,
            terms,
            word,
            mut pass,
            lists,
            mut seats,
            copies,
        } = self;
        // Last, since a list of nodes can't be dropped.
        let Ok((mut locks, room)) = rooms(alloc, net.places().len()) else {
            return Err((net, FabricFault::NoMemory));
        };
        let parts = net.into_nodes();
        // The proof reads here what the parts keep.
        let _nodes = parts.nodes();
        let (wires, mut nodes, _) = parts.into_parts();
        fill_seats(alloc, &word, &mut pass, terms, &mut seats);
        lock_all::<N>(&word, &mut pass, &mut nodes, &mut locks);
        let fabric = Fabric {
            wires,
            word,
            rest: Mutex::new(Rest {
                pass,
                naming: PhantomData,
            }),
            seat_count: terms.seats as usize,
            locks,
            room,
            nodes,
            lists,
            starts: copies.starts,
            before: copies.before,
        };
        Ok((fabric, seats))
    }
}

/// Room for this number of nodes behind locks, and for them when they are taken out again. The only error is out of memory.
fn rooms<N: Naming>(
    alloc: Global,
    count: usize,
) -> Result<(Vec<Mutex<Held<N>>>, Vec<Placed>), OutOfMemory>
    ensures locks { IfOk result (λ rooms. (rooms.0.items ≡ []) × (count ≤ vec_capacity rooms.0)) }
    ensures room { IfOk result (λ rooms. (rooms.1.items ≡ []) × (count ≤ vec_capacity rooms.1)) }
{
    let Ok(locks) = Vec::with_capacity(alloc, count) else {
        return Err(OutOfMemory);
    };
    match Vec::with_capacity(alloc, count) {
        Ok(room) => Ok((locks, room)),
        Err(_) => {
            locks.destroy_empty();
            Err(OutOfMemory)
        }
    }
}

/// What a fabric has beside its nodes and their locks.
struct Room {
    word: TicketWord,
    pass: Pass,
    lists: Vec<SeatCalls>,
    seats: Vec<Seat>,
    copies: Copies,
}

/// What a fabric of a network has beside its nodes and their locks. The only error is out of memory.
fn room_for(alloc: Global, net: &Net, terms: Terms) -> Result<Room, OutOfMemory>
    requires first { terms.first ≤ FIRST_LIMIT }
    requires seats { terms.seats ≤ SEAT_LIMIT }
    ensures word { IfOk result (λ room. room.word.terms ≡ terms) }
    ensures pass { IfOk result (λ room. (room.pass.word_id ≡ room.word.word_id) × (room.pass.view ≡ first_view terms)) }
    ensures lists { IfOk result (λ room. (room.lists.items ≡ []) × (terms.seats ≤ vec_capacity room.lists)) }
    ensures room { IfOk result (λ room. (room.seats.items ≡ []) × (terms.seats ≤ vec_capacity room.seats)) }
    ensures starts { IfOk result (λ room. room.copies.starts.items ≡ net.now.starts) }
    ensures before { IfOk result (λ room. room.copies.before.items ≡ net.now.traces) }
{
    let count = terms.seats as usize;
    let lists = Vec::with_capacity(alloc, count)?;
    let seats = Vec::with_capacity(alloc, count)?;
    let (word, pass) = TicketWord::new(alloc, terms)?;
    let copies = copies_of(alloc, net.places())?;
    Ok(Room {
        word,
        pass,
        lists,
        seats,
        copies,
    })
}

/// Where each node started, and what it did since. The only error is out of memory.
fn copies_of(alloc: Global, nodes: &[Node]) -> Result<Copies, OutOfMemory>
    ensures starts { IfOk result (λ copies. copies.starts.items ≡ map node_start nodes.now) }
    ensures before { IfOk result (λ copies. copies.before.items ≡ map node_trace nodes.now) }
{
    let starts = starts_of(alloc, nodes)?;
    let before = traces_of(alloc, nodes)?;
    Ok(Copies { starts, before })
}

/// A copy of where each node started. The only error is out of memory.
pub(crate) fn starts_of(alloc: Global, nodes: &[Node]) -> Result<Vec<NodeStart>, OutOfMemory>
    ensures { IfOk result (λ list. list.items ≡ map node_start nodes.now) }
{
    let mut list = Vec::with_capacity(alloc, nodes.len())?;
    for node in nodes {
        let copy = node.start().copy(alloc)?;
        list.push(copy)?;
    }
    Ok(list)
}

/// A copy of what each node did since its start. The only error is out of memory.
pub(crate) fn traces_of(alloc: Global, nodes: &[Node]) -> Result<Vec<Items<Entry>>, OutOfMemory>
    ensures { IfOk result (λ list. list.items ≡ map node_trace nodes.now) }
{
    let mut list = Vec::with_capacity(alloc, nodes.len())?;
    for node in nodes {
        let copy = node.copy_trace(alloc)?;
        list.push(Items::new(copy))?;
    }
    Ok(list)
}

/// The seats of a fabric join an empty list with room for them, each with the pass to its track.
fn fill_seats(alloc: Global, word: &TicketWord, pass: &mut Pass, terms: Terms, list: &mut Vec<Seat>)
    requires pass { (pass.old.word_id ≡ word.now.word_id) × (pass.old.view ≡ first_view terms) }
    requires count { terms.seats ≤ SEAT_LIMIT }
    requires empty { list.old.items ≡ [] }
    requires room { terms.seats ≤ vec_capacity list.old }
    ensures pass { (pass.new.word_id ≡ pass.old.word_id) × (pass.new.view ≡ record { terms = terms; tracks = place_tracks 0 terms.places }) }
    ensures seats { map seat_view list.new.items ≡ first_seats word.now.word_id terms }
    ensures own { AreSeatsOf word.now.word_id list.new.items }
{
    for number in 0..terms.seats {
        let own = word.split(pass);
        list.push_reserved(Seat::new(alloc, own, number as u8));
    }
}

/// Each node is put behind a lock of its own, with the pass to its place's track, in a list with room for it.
fn lock_all<N: Naming>(
    word: &TicketWord,
    pass: &mut Pass,
    nodes: &mut Vec<Node>,
    locks: &mut Vec<Mutex<Held<N>>>,
)
    requires word { (pass.old.word_id ≡ word.now.word_id) × (word.now.word_id ≡ N.word) }
    requires tracks { pass.old.view.tracks ≡ place_tracks 0 (length nodes.old.items) }
    requires starts { N.handed.starts ≡ map node_start nodes.old.items }
    requires before { N.handed.before ≡ map node_trace nodes.old.items }
    requires empty { locks.old.items ≡ [] }
    requires room { length nodes.old.items ≤ vec_capacity locks.old }
    ensures pass { pass.new.word_id ≡ pass.old.word_id }
    ensures nodes { nodes.new.items ≡ [] }
    ensures locks { length locks.new.items ≡ length nodes.old.items }
    ensures room { vec_capacity nodes.new ≡ vec_capacity nodes.old }
{
    nodes.reverse();
    while let Some(node) = nodes.pop() {
        let own = word.split(pass);
        locks.push_reserved(Mutex::new(Held::new(locks.len(), node, own)));
    }
}
