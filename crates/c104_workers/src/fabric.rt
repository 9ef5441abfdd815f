//! A fabric: nodes behind locks of their own, and the word of tickets.
ghost use Rattle.{c104_node.specs.PortActs.Acts, c104_plan.specs.Plans.IsPlan, c104_run.specs.{EventActs.event_acts, NetParts.node_count}};
ghost use Rattle.{c104_run.specs.Network.event_fault, c104_token.specs.declared.tokens.Token.Token as TheToken};
ghost use Rattle.{c104_turns.specs.{Calls.IsSameSeat, SeatGrowth.{FaultsAs, Follows, Grew}}, c104_workers.specs.Fabrics.WasHanded};
ghost use Rattle.c104_workers.specs.LentCalls.{AreBelow, AreLentFor, CallsLent, CallsOne, CallsTwo, asked_places, event_places};
ghost use Rattle.std.specs.Prelude.{IfOk, MatchResult, None, Some, ◌<◌, ◌≡◌};

use crate::calls::SeatCalls;
use crate::closing::Placed;
use crate::gates::{Gate, OpenGate};
use crate::held::Held;
use crate::lent_calls::{
    call_held, call_held_pair, call_held_send, call_node, call_pair, call_send,
};
use crate::naming::Naming;
use crate::seats::Seat;
use c104_event::{Event, EventFault};
use c104_node::{Entry, Node, NodeStart, Place};
use c104_plan::Plan;
use c104_run::{Asked, Wires, acts_of};
use c104_switch::{Reply, ReplyOf};
use c104_tickets::{Pass, TicketWord};
use c104_token::{Items, NoMemory, Token};
use c104_turns::{Part, Stage};
use std::marker::{Model, PhantomData};
use std::sync::{Mutex, Wait};

/// What is left of a word's first pass, when the tracks of all seats and places were split off it.
#[derive(Drop)]
pub(crate) struct Rest<N: Naming> {
    pub(crate) pass: Pass,
    pub(crate) naming: PhantomData<N>,
}

impl<N: Naming> Model for Rest<N> {
    ghost use Rattle.std.specs.Prelude.{◌≡◌};
    ghost use Rattle.c104_tickets.specs.Tickets.{PassValue};

    ghost Value = { PassValue };

    ghost view = { λ r. r.pass };

    ghost invariant = { λ r. r.pass.word_id ≡ N.word };
}

/// The nodes of a network behind locks of their own. Events are done on them through seats.
pub struct Fabric<N: Naming> {
    pub(crate) wires: Wires,
    pub(crate) word: TicketWord,
    // A pass can't be shared, so it lies behind a lock as well.
    pub(crate) rest: Mutex<Rest<N>>,
    pub(crate) seat_count: usize,
    // The switches in order, and then the terminals.
    pub(crate) locks: Vec<Mutex<Held<N>>>,
    // Room for the nodes at the end, with their places and without, and for what each seat leaves, so that `close` takes no
    // memory.
    pub(crate) room: Vec<Placed>,
    pub(crate) nodes: Vec<Node>,
    pub(crate) lists: Vec<SeatCalls>,
    // Where each node had started when the fabric was made, and what it had done since.
    pub(crate) starts: Vec<NodeStart>,
    pub(crate) before: Vec<Items<Entry>>,
}

impl<N: Naming> Model for Fabric<N> {
    ghost use Rattle.std.specs.{Prelude.{[], vec_len, ◌≡◌, ◌≤◌}, Vec.vec_capacity};
    ghost use Rattle.{c104_run.specs.NetParts.node_count, c104_workers.specs.Fabrics.{FabricView, WasHanded}};

    ghost Value = { FabricView };

    ghost view = { λ f. record {
      handed = record { plan = f.wires; count = f.word.terms.first; starts = f.starts.items; before = f.before.items };
      word_id = f.word.word_id;
      terms = f.word.terms;
    } };

    ghost invariant = { λ f.
        (vec_len f.locks ≡ node_count f.wires) × (f.word.terms.places ≡ node_count f.wires)
        × (f.room.items ≡ []) × (vec_len f.locks ≤ vec_capacity f.room)
        × (f.nodes.items ≡ []) × (vec_len f.locks ≤ vec_capacity f.nodes)
        × (f.lists.items ≡ []) × (f.word.terms.seats ≤ vec_capacity f.lists)
        × (f.seat_count ≡ f.word.terms.seats)
        × (f.word.word_id ≡ N.word)
        × (record { plan = f.wires; count = f.word.terms.first; starts = f.starts.items; before = f.before.items } ≡ N.handed)
        × WasHanded (record { plan = f.wires; count = f.word.terms.first; starts = f.starts.items; before = f.before.items }) };
}

impl<N: Naming> Fabric<N> {
    /// The plan of the network.
    pub fn plan(&self) -> &Plan
        ensures plan { result.now ≡ self.now.handed.plan }
        ensures kept { IsPlan self.now.handed.plan }
        ensures handed { WasHanded self.now.handed }
    {
        // The proof reads the rest of the fabric by these names.
        let _word = &self.word;
        let _starts = self.starts.as_slice();
        let _before = self.before.as_slice();
        self.wires.plan()
    }

    /// The wires of the plan.
    pub(crate) fn wires(&self) -> &Wires
        ensures { result.now ≡ self.now.handed.plan }
    {
        &self.wires
    }

    /// How many nodes there are.
    pub(crate) fn node_count(&self) -> usize
        ensures { result ≡ node_count self.now.handed.plan }
    {
        self.locks.len()
    }

    /// The places of an event's nodes, the lower first: one, or the two at the ends of a wire. NoNode, NoLink, NotWired or
    /// TooLong where the event can't happen.
    pub fn place(&self, event: &Event) -> Result<(usize, Option<usize>), EventFault>
        ensures fault { MatchResult result
            (λ places. event_fault self.now.handed.plan event.now ≡ None)
            (λ fault. event_fault self.now.handed.plan event.now ≡ Some fault) }
        ensures places { IfOk result (λ places. event_places self.now.handed.plan event.now ≡ Some places) }
        ensures lent { IfOk result (λ places. AreLentFor (event_acts self.now.handed.plan event.now) places.1) }
        ensures inside { IfOk result (λ places. AreBelow (node_count self.now.handed.plan) places) }
    {
        // The proof reads here what every plan keeps.
        let _plan = self.wires.plan();
        let asked: Asked<'_, Token> = acts_of(&self.wires, event)?;
        Ok(places_of(asked))
    }

    /// Does an event on nodes that are lent to it, the lower first, if it is ready there and no limit refuses it. It takes no
    /// lock, and draws a ticket only when the event is sure to be done. What is done so is none of the run of the fabric's own
    /// nodes.
    ///
    /// It is NotReady also where a node is of another kind than the event's, or hasn't the wired link of a Cross or
    /// Credit. OutboxFull, InboxFull, TraceFull, which is told of the seat's list too, or NoMemory where it is refused.
    pub fn apply_held(
        &self,
        seat: &mut Seat,
        event: &Event,
        first: &mut Node,
        second: Option<&mut Node>,
    ) -> Result<Reply, EventFault>
        requires word { seat.old.0.word_id ≡ self.now.word_id }
        requires fault { event_fault self.now.handed.plan event.now ≡ None }
        requires lent { AreLentFor (event_acts self.now.handed.plan event.now) second }
        ensures { CallsLent self.now.handed.plan (event_acts self.now.handed.plan event.now) seat.old.0 seat.new.0
            first.old.0 first.new.0 second.entry second.exit event.now result }
    {
        match second {
            None => self.lent_to_one(seat, event, first),
            Some(other) => self.lent_to_two(seat, event, first, other),
        }
    }

    /// Does an event of one node that is lent.
    fn lent_to_one(
        &self,
        seat: &mut Seat,
        event: &Event,
        node: &mut Node,
    ) -> Result<Reply, EventFault>
        requires word { seat.old.0.word_id ≡ self.now.word_id }
        requires fault { event_fault self.now.handed.plan event.now ≡ None }
        requires lent { AreLentFor {X = Unit {0}} (event_acts self.now.handed.plan event.now) None }
        ensures { CallsOne (event_acts self.now.handed.plan event.now) seat.old.0 seat.new.0 node.old.0 node.new.0
            event.now result }
    {
        let asked: Result<Asked<'_, Token>, EventFault> = acts_of(&self.wires, event);
        match asked {
            Ok(Asked::Alone(_, act)) => call_node(seat, &self.word, node, act, event),
            Ok(Asked::Send(_, packet)) => call_send(seat, &self.word, node, packet, event),
            Ok(Asked::Joint(_, _, _)) => unreachable!(),
            Err(_) => unreachable!(),
        }
    }

    /// Does an event of two nodes that are lent, those at the ends of a wire.
    fn lent_to_two(
        &self,
        seat: &mut Seat,
        event: &Event,
        first: &mut Node,
        second: &mut Node,
    ) -> Result<Reply, EventFault>
        requires word { seat.old.0.word_id ≡ self.now.word_id }
        requires fault { event_fault self.now.handed.plan event.now ≡ None }
        requires lent { AreLentFor {X = Unit {0}} (event_acts self.now.handed.plan event.now) (Some tt) }
        ensures { CallsTwo self.now.handed.plan (event_acts self.now.handed.plan event.now) seat.old.0 seat.new.0
            first.old.0 first.new.0 second.old.0 second.new.0 event.now result }
    {
        let asked: Result<Asked<'_, Token>, EventFault> = acts_of(&self.wires, event);
        match asked {
            Ok(Asked::Joint(near, far, joint)) => {
                if near < far {
                    call_pair(seat, &self.word, first, second, joint, event)
                } else {
                    call_pair(seat, &self.word, second, first, joint, event)
                }
            }
            Ok(Asked::Alone(_, _)) => unreachable!(),
            Ok(Asked::Send(_, _)) => unreachable!(),
            Err(_) => unreachable!(),
        }
    }

    /// Does an event on its nodes, under their locks, of which the lower is taken first: as `apply_held` does it on nodes that
    /// are lent. NoNode, NoLink, NotWired or TooLong where the event can't happen. Where it is done, the seat has a call more.
    pub fn apply<R: Wait>(
        &self,
        rt: &R,
        seat: &mut Seat,
        event: &Event,
    ) -> Result<Reply, EventFault>
        requires word { seat.old.0.word_id ≡ self.now.word_id }
        ensures fault { FaultsAs (event_fault self.now.handed.plan event.now) event.now result }
        ensures grew { Grew seat.old.0 seat.new.0 event.now result }
        ensures same { IsSameSeat seat.old.0 seat.new.0 }
    {
        self.apply_by_worker(rt, seat, event, &OpenGate, 0)
    }

    /// The same for a worker, which asks a gate while the nodes are locked.
    pub(crate) fn apply_by_worker<R: Wait, G: Gate>(
        &self,
        rt: &R,
        seat: &mut Seat,
        event: &Event,
        gate: &G,
        worker: usize,
    ) -> Result<Reply, EventFault>
        requires word { seat.old.0.word_id ≡ self.now.word_id }
        ensures fault { FaultsAs (event_fault self.now.handed.plan event.now) event.now result }
        ensures grew { Grew seat.old.0 seat.new.0 event.now result }
        ensures same { IsSameSeat seat.old.0 seat.new.0 }
    {
        let (lower, higher) = self.place(event)?;
        let mut first = self.locks[lower].lock(rt);
        match higher {
            None => {
                gate.inside(worker, lower);
                self.apply_to_one(seat, event, &mut first, lower)
            }
            Some(higher) => {
                let mut second = self.locks[higher].lock(rt);
                gate.inside(worker, lower);
                self.apply_to_two(seat, event, &mut first, &mut second, (lower, higher))
            }
        }
    }

    /// Does an event of one node, that at this place, under its lock.
    fn apply_to_one(
        &self,
        seat: &mut Seat,
        event: &Event,
        held: &mut Held<N>,
        place: usize,
    ) -> Result<Reply, EventFault>
        requires word { seat.old.0.word_id ≡ self.now.word_id }
        requires fault { event_fault self.now.handed.plan event.now ≡ None }
        requires lent { AreLentFor {X = Unit {0}} (event_acts self.now.handed.plan event.now) None }
        requires place { event_places self.now.handed.plan event.now ≡ Some (place, None) }
        ensures { Follows seat.old.0 seat.new.0 event.now result }
    {
        if held.place != place {
            return Ok(ReplyOf::NotReady);
        }
        let asked: Result<Asked<'_, Token>, EventFault> = acts_of(&self.wires, event);
        match asked {
            Ok(Asked::Alone(_, act)) => call_held(seat, &self.word, held, act, event),
            Ok(Asked::Send(_, packet)) => call_held_send(seat, &self.word, held, packet, event),
            Ok(Asked::Joint(_, _, _)) => unreachable!(),
            Err(_) => unreachable!(),
        }
    }

    /// Does an event of the two nodes at the ends of a wire, those at these places, under their locks.
    fn apply_to_two(
        &self,
        seat: &mut Seat,
        event: &Event,
        first: &mut Held<N>,
        second: &mut Held<N>,
        places: (usize, usize),
    ) -> Result<Reply, EventFault>
        requires word { seat.old.0.word_id ≡ self.now.word_id }
        requires fault { event_fault self.now.handed.plan event.now ≡ None }
        requires lent { AreLentFor {X = Unit {0}} (event_acts self.now.handed.plan event.now) (Some tt) }
        requires places { event_places self.now.handed.plan event.now ≡ Some (places.0, Some places.1) }
        requires lower { places.0 < places.1 }
        ensures { Follows seat.old.0 seat.new.0 event.now result }
    {
        if first.place != places.0 || second.place != places.1 {
            return Ok(ReplyOf::NotReady);
        }
        let asked: Result<Asked<'_, Token>, EventFault> = acts_of(&self.wires, event);
        match asked {
            Ok(Asked::Joint(near, far, joint)) => {
                if near < far {
                    call_held_pair(seat, &self.word, first, second, joint, event)
                } else {
                    call_held_pair(seat, &self.word, second, first, joint, event)
                }
            }
            Ok(Asked::Alone(_, _)) => unreachable!(),
            Ok(Asked::Send(_, _)) => unreachable!(),
            Err(_) => unreachable!(),
        }
    }

    /// Lists the numbers of those events of a part's stage that its node may be ready for when it is locked. For each of the
    /// others the gate is asked here, and the event is over for a worker. The only error is out of memory.
    pub(crate) fn list_ready<R: Wait, G: Gate>(
        &self,
        rt: &R,
        part: &Part,
        stage: Stage,
        ready: &mut Vec<usize>,
        gate: &G,
        worker: usize,
    ) -> Result<(), NoMemory> {
        ready.clear();
        let count = part.count(stage);
        if count == 0 {
            return Ok(());
        }
        let Some(lock) = self.locks.get(part.node()) else {
            return Ok(());
        };
        let held = lock.lock(rt);
        part.add_ready(Place::node(&held.node), stage, ready)?;
        for _ in ready.len()..count {
            gate.inside(worker, part.node());
        }
        Ok(())
    }

    /// Whether all nodes are quiet, each when it is asked: no token stands there, and no packet is under way. It locks
    /// one node after the other, so while others do events that may no longer be so when it answers.
    pub fn quiet<R: Wait>(&self, rt: &R) -> bool {
        for lock in &self.locks {
            if !is_quiet(rt, lock) {
                return false;
            }
        }
        true
    }
}

/// Whether the node behind a lock is quiet.
fn is_quiet<N: Naming, R: Wait>(rt: &R, lock: &Mutex<Held<N>>) -> bool {
    lock.lock(rt).node.quiet()
}

/// The places of what an event asks, the lower first.
fn places_of(asked: Asked<'_, Token>) -> (usize, Option<usize>)
    ensures { result ≡ asked_places asked.entry }
{
    match asked {
        Asked::Alone(place, _) => (place, None),
        Asked::Send(place, _) => (place, None),
        Asked::Joint(near, far, _) => {
            if near < far {
                (near, Some(far))
            } else {
                (far, Some(near))
            }
        }
    }
}
