//! A shared network of a network, with its seats.
//!
//! The network is taken apart last, when all memory is there but for the locks: so one that is refused is given back itself. It
//! is made in two steps, since the type of what lies behind the locks names the log, which has to be there before.
ghost use Rattle.{c104_lean.specs.{Seats.AreSeatsOf, Shared.{ArePartsOf, record_of, terms_of}}, c104_run.specs.NetParts.node_count};
ghost use Rattle.c104_tickets.specs.{Tickets.{first_view, place_tracks}, declared.TheConstants.{FIRST_LIMIT, SEAT_LIMIT, TICKET_LIMIT}};
ghost use Rattle.c104_turns.specs.FirstSeats.{IsSeatCount, fabric_fault, first_seats};
ghost use Rattle.std.specs.{Prelude.{IfOk, MatchResult, [], length, map, ◌≡◌, ◌≤◌}, Vec.vec_capacity};
ghost use Rattle.c104_turns.specs.declared.faults.FabricFault.TheVariants as fabric_fault_of;

use crate::closing::Placed;
use crate::held::HeldNode;
use crate::seats::CountedSeat;
use crate::shared_net::{Rest, SharedNet};
use crate::sharing::Sharing;
use c104_net::TracedNet;
use c104_node::CountedNode;
use c104_run::Wires;
use c104_tickets::{DeedLog, Pass, SEAT_LIMIT, Terms};
use c104_token::NoMemory as OutOfMemory;
use c104_turns::{FabricFault, Part};
use std::alloc::Global;
use std::marker::{Model, PhantomData};
use std::sync::Mutex;

/// A network that may be shared, with its log, and what it will have beside the nodes.
///
/// It can't be dropped, since switches hold claims.
pub struct Ready {
    wires: Wires,
    nodes: Vec<CountedNode>,
    terms: Terms,
    limit: u64,
    log: DeedLog,
    pass: Pass,
    seats: Vec<CountedSeat>,
    parts: Vec<Part>,
}

impl Model for Ready {
    ghost use Rattle.{c104_lean.specs.Shared.{ArePartsOf, SharedView, WasShared, record_of, terms_of}, c104_run.specs.Engines.engine_of};
    ghost use Rattle.{c104_tickets.specs.{Tickets.first_view, declared.TheConstants.TICKET_LIMIT}, c104_turns.specs.FirstSeats.IsSeatCount};
    ghost use Rattle.std.specs.{Prelude.{[], ◌≡◌, ◌≤◌}, Vec.vec_capacity};

    ghost Value = { SharedView };

    ghost view = { λ r. record {
      before = engine_of r.wires r.nodes.items r.terms.first;
      word_id = r.log.word_id;
      terms = r.terms;
    } };

    ghost invariant = { λ r.
        WasShared (engine_of r.wires r.nodes.items r.terms.first)
        × (r.terms ≡ terms_of (record_of (engine_of r.wires r.nodes.items r.terms.first)) r.terms.seats)
        × IsSeatCount r.terms.seats × (r.limit ≤ TICKET_LIMIT)
        × (r.log.terms ≡ r.terms) × (r.pass.word_id ≡ r.log.word_id) × (r.pass.view ≡ first_view r.terms)
        × (r.seats.items ≡ []) × (r.terms.seats ≤ vec_capacity r.seats)
        × ArePartsOf r.wires r.parts.items };
}

impl Ready {
    /// Makes ready for sharing a network by this many seats, 1 to 64, each of which does at most this many events. SeatCount
    /// where there are to be others; else the only error is out of memory. Then the network is given back as it was.
    pub fn new(
        alloc: Global,
        net: TracedNet,
        seats: usize,
        limit: u64,
    ) -> Result<Ready, (TracedNet, FabricFault)>
        requires { limit ≤ TICKET_LIMIT }
        ensures net { MatchResult result
            (λ ready. record_of ready.before ≡ net)
            (λ refused. refused.0 ≡ net) }
        ensures terms { MatchResult result
            (λ ready. ready.terms ≡ terms_of net seats)
            (λ _. Unit {0}) }
        ensures fault { MatchResult result
            (λ _. IsSeatCount seats)
            (λ refused. refused.1 ≡ fabric_fault seats) }
    {
        if seats == 0 || seats as u64 > SEAT_LIMIT {
            return Err((net, FabricFault::SeatCount));
        }
        let terms = Terms {
            first: net.count(),
            seats: seats as u64,
            places: (net.plan().switches().len() + net.plan().terminals().len()) as u64,
        };
        match room_for(alloc, net.wires(), terms) {
            Err(_) => Err((net, FabricFault::NoMemory)),
            Ok(
                Room {
                    log,
                    pass,
                    seats,
                    parts,
                },
            ) => {
                let (wires, nodes, _) = net.into_parts();
                Ok(Ready {
                    wires,
                    nodes,
                    terms,
                    limit,
                    log,
                    pass,
                    seats,
                    parts,
                })
            }
        }
    }

    /// The shared network, and its seats by their numbers from 0 on, each with no call yet. The only error is out of memory;
    /// then the network is given back as it was.
    pub fn into_shared<N: Sharing>(
        self,
        alloc: Global,
    ) -> Result<(SharedNet<N>, Vec<CountedSeat>), (TracedNet, FabricFault)>
        requires word { self.word_id ≡ N.word }
        requires before { self.before ≡ N.before }
        ensures before { MatchResult result
            (λ made. made.0.before ≡ self.before)
            (λ refused. refused.0 ≡ record_of self.before) }
        ensures word { MatchResult result
            (λ made. (made.0.word_id ≡ self.word_id) × (made.0.terms ≡ self.terms))
            (λ refused. refused.1 ≡ fabric_fault_of.NoMemory) }
        ensures seats { MatchResult result
            (λ made. made.1.items ≡ first_seats made.0.word_id made.0.terms)
            (λ _. Unit {0}) }
        ensures own { MatchResult result
            (λ made. AreSeatsOf made.0.word_id made.1.items)
            (λ _. Unit {0}) }
    {
        let Ready {
            wires,
            mut nodes,
            terms,
            limit,
            log,
            mut pass,
            mut seats,
            parts,
        } = self;
        // Last, since a list of nodes can't be dropped.
        let Ok((mut locks, room)) = rooms(alloc, nodes.len()) else {
            let net = TracedNet::of_parts(wires, nodes, terms.first);
            return Err((net, FabricFault::NoMemory));
        };
        fill_seats(&log, &mut pass, terms, limit, &mut seats);
        lock_all::<N>(&log, &mut pass, &mut nodes, &mut locks);
        let shared = SharedNet {
            wires,
            log,
            rest: Mutex::new(Rest {
                pass,
                sharing: PhantomData,
            }),
            locks,
            parts,
            room,
            nodes,
        };
        Ok((shared, seats))
    }
}

/// Room for this number of nodes behind locks, and for them when they are taken out again. The only error is out of memory.
fn rooms<N: Sharing>(
    alloc: Global,
    count: usize,
) -> Result<(Vec<Mutex<HeldNode<N>>>, Vec<Placed>), OutOfMemory>
    ensures locks { IfOk result (λ rooms. (rooms.0.items ≡ []) × (count ≤ vec_capacity rooms.0)) }
    ensures room { IfOk result (λ rooms. (rooms.1.items ≡ []) × (count ≤ vec_capacity rooms.1)) }
{
    let Ok(locks) = Vec::with_capacity(alloc, count) else {
        return Err(OutOfMemory);
    };
    match Vec::with_capacity(alloc, count) {
        Ok(room) => Ok((locks, room)),
        Err(_) => {
            locks.destroy_empty();
            Err(OutOfMemory)
        }
    }
}

/// What a shared network has beside its nodes and their locks.
struct Room {
    log: DeedLog,
    pass: Pass,
    seats: Vec<CountedSeat>,
    parts: Vec<Part>,
}

/// What a shared network has beside its nodes and their locks. The only error is out of memory.
fn room_for(alloc: Global, wires: &Wires, terms: Terms) -> Result<Room, OutOfMemory>
    requires first { terms.first ≤ FIRST_LIMIT }
    requires seats { terms.seats ≤ SEAT_LIMIT }
    requires places { terms.places ≡ node_count wires.now }
    ensures word { IfOk result (λ room. room.log.terms ≡ terms) }
    ensures pass { IfOk result (λ room. (room.pass.word_id ≡ room.log.word_id) × (room.pass.view ≡ first_view terms)) }
    ensures room { IfOk result (λ room. (room.seats.items ≡ []) × (terms.seats ≤ vec_capacity room.seats)) }
    ensures parts { IfOk result (λ room. ArePartsOf wires.now room.parts.items) }
{
    let seats = Vec::with_capacity(alloc, terms.seats as usize)?;
    let parts = all_parts(alloc, wires, terms.places as usize)?;
    let (log, pass) = DeedLog::new(alloc, terms)?;
    Ok(Room {
        log,
        pass,
        seats,
        parts,
    })
}

/// The part that a round has for each node. The only error is out of memory.
fn all_parts(alloc: Global, wires: &Wires, count: usize) -> Result<Vec<Part>, OutOfMemory>
    requires { count ≡ node_count wires.now }
    ensures { IfOk result (λ parts. ArePartsOf wires.now parts.items) }
{
    let mut parts = Vec::with_capacity(alloc, count)?;
    for node in 0..count {
        parts.push(Part::of_round(alloc, wires, node)?)?;
    }
    Ok(parts)
}

/// The seats of a shared network join an empty list with room for them, each with the pass to its track.
fn fill_seats(log: &DeedLog, pass: &mut Pass, terms: Terms, limit: u64, list: &mut Vec<CountedSeat>)
    requires pass { (pass.old.word_id ≡ log.now.word_id) × (pass.old.view ≡ first_view terms) }
    requires count { terms.seats ≤ SEAT_LIMIT }
    requires limited { limit ≤ TICKET_LIMIT }
    requires empty { list.old.items ≡ [] }
    requires room { terms.seats ≤ vec_capacity list.old }
    ensures pass { (pass.new.word_id ≡ pass.old.word_id) × (pass.new.view ≡ record { terms = terms; tracks = place_tracks 0 terms.places }) }
    ensures seats { list.new.items ≡ first_seats log.now.word_id terms }
    ensures own { AreSeatsOf log.now.word_id list.new.items }
{
    for number in 0..terms.seats {
        let own = log.split(pass);
        list.push_reserved(CountedSeat::new(own, number as u8, limit));
    }
}

/// Each node is put behind a lock of its own, with the pass to its place's track, in a list with room for it.
fn lock_all<N: Sharing>(
    log: &DeedLog,
    pass: &mut Pass,
    nodes: &mut Vec<CountedNode>,
    locks: &mut Vec<Mutex<HeldNode<N>>>,
)
    requires word { (pass.old.word_id ≡ log.now.word_id) × (log.now.word_id ≡ N.word) }
    requires tracks { pass.old.view.tracks ≡ place_tracks 0 (length nodes.old.items) }
    requires stood { N.before.places ≡ nodes.old.items }
    requires empty { locks.old.items ≡ [] }
    requires room { length nodes.old.items ≤ vec_capacity locks.old }
    ensures pass { pass.new.word_id ≡ pass.old.word_id }
    ensures nodes { nodes.new.items ≡ [] }
    ensures locks { length locks.new.items ≡ length nodes.old.items }
    ensures room { vec_capacity nodes.new ≡ vec_capacity nodes.old }
{
    nodes.reverse();
    while let Some(node) = nodes.pop() {
        let own = log.split(pass);
        locks.push_reserved(Mutex::new(HeldNode::new(locks.len(), node, own)));
    }
}
