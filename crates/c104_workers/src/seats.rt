//! A seat: through it events are done, and it keeps a call of each.
//!
//! A full list of a seat is TraceFull, as a full trace is: an event that is ready has both to be kept in. A worker's seat
//! keeps why it stopped, since threads of std's forks hand back what they wrote, and no result.
ghost use Rattle.{c104_event.specs.Calls.call_of, c104_node.specs.{Acts.IsWithinLimits, Records.{HasRoomFor, is_full, pair_step}}};
ghost use Rattle.{c104_node.specs.Records.{recorded_limit, recorded_step}, c104_switch.specs.Actions.is_ready};
ghost use Rattle.{c104_turns.specs.{Calls.seat_track, FirstSeats.first_seat}, c104_workers.specs.Held.{AsksNode, AsksPair, crossed_or}};
ghost use Rattle.c104_workers.specs.{Held.{lent_deed, node_deed, pair_deed, told_or}, LentCalls.{NodeActed, PairActed}, Seats.IsSeat};
ghost use Rattle.c104_workers.specs.Seats.{is_seat_full};
ghost use Rattle.std.specs.{Prelude.{None, OnOk, [], false, is_some, length, true, ◌++◌, ◌<◌, ◌∷◌, ◌≡◌}, Vec.vec_capacity};

use crate::calls::SeatCalls;
use crate::held::Held;
use crate::naming::Naming;
use c104_event::{Call, Event, EventFault};
use c104_node::{Act, Joint, Node, act_pair, same_reply};
use c104_switch::Reply;
use c104_tickets::{Asks, Pass, TicketWord};
use c104_token::{Items, NoMemory};
use std::alloc::Global;
use std::marker::Model;

/// The most calls of a seat.
pub const CALL_LIMIT: usize = 1_048_576;

// Contracts name this limit: its value is a part of what they say.
const _: () = prove!(CALL_LIMIT == 1_048_576);

/// A seat of a fabric. It keeps a call of each event that was done through it, in order, at most 1,048,576.
#[derive(Drop)]
pub struct Seat {
    pass: Pass,
    number: u8,
    calls: Vec<Call>,
    // Why the last worker stopped that used the seat, if it did.
    stopped: Option<EventFault>,
    // Whether a call was done on nodes that were lent.
    lent: bool,
}

impl Model for Seat {
    ghost use Rattle.{c104_turns.specs.Calls.SeatView, c104_workers.specs.Seats.IsSeat};
    ghost use Rattle.std.specs.{Prelude.{vec_len, ℕ, ◌-◌}, Vec.vec_capacity};

    // What is seen, and for how many further calls there is room.
    ghost Value = { SeatView × ℕ };

    ghost view = { λ s. (
      record {
        word_id = s.pass.word_id;
        terms = s.pass.view.terms;
        number = s.number;
        calls = s.calls.items;
        stopped = s.stopped;
        lent = s.lent;
      },
      vec_capacity s.calls - vec_len s.calls,
    ) };

    ghost invariant = { λ s. IsSeat s.pass.view s.number s.calls.items s.lent };
}

impl Seat {
    /// A seat with no call yet.
    pub(crate) fn new(alloc: Global, pass: Pass, number: u8) -> Self
        requires fresh { pass.view.tracks ≡ seat_track number [] ∷ [] }
        ensures { result.0 ≡ first_seat pass.word_id pass.view.terms number }
    {
        Seat {
            pass,
            number,
            calls: Vec::new(alloc),
            stopped: None,
            lent: false,
        }
    }

    /// The number of the seat, below 64.
    pub fn number(&self) -> u8
        ensures { result ≡ self.now.0.number }
    {
        self.number
    }

    /// The calls that were done, in order.
    pub fn calls(&self) -> &[Call]
        ensures { result.now ≡ self.now.0.calls }
    {
        self.calls.as_slice()
    }

    /// The event's fault at which the last worker stopped that used the seat. None if it did all its turns, or there was
    /// none.
    pub(crate) fn stopped(&self) -> Option<EventFault>
        ensures { result ≡ self.now.0.stopped }
    {
        self.stopped
    }

    /// Keeps where a worker stopped.
    pub(crate) fn stop(&mut self, stopped: Option<EventFault>)
        ensures { self.new.0 ≡ record self.old.0 { stopped = stopped } }
    {
        self.stopped = stopped;
    }

    /// Whether no further call may be kept.
    pub(crate) fn is_full(&self) -> bool
        ensures { result ≡ is_seat_full self.now.0 }
    {
        self.calls.len() >= CALL_LIMIT
    }

    /// Makes room for a call. The only error is out of memory.
    pub(crate) fn room(&mut self) -> Result<(), NoMemory>
        ensures same { self.new.0 ≡ self.old.0 }
        ensures room { OnOk result (0 < self.new.1) }
    {
        self.calls.reserve(1)?;
        Ok(())
    }

    /// Draws a ticket, and a node acts that was lent, is ready and that no limit refuses. There is room for the act and the
    /// call. The caller says in its proofs for which deed the ticket is drawn, by the types.
    pub(crate) fn act<A: Asks>(
        &mut self,
        word: &TicketWord,
        node: &mut Node,
        act: Act,
        event: Event,
    ) -> Reply
        requires word { self.old.0.word_id ≡ word.now.word_id }
        requires deed { A.deed ≡ lent_deed self.old.0.number event (told_or (recorded_step node.old.0 act)) }
        requires seat_room { 0 < self.old.1 }
        requires free { is_seat_full self.old.0 ≡ false }
        requires short { IsWithinLimits act }
        requires ready { is_some (recorded_step node.old.0 act) ≡ true }
        requires below { recorded_limit node.old.0 act ≡ None }
        requires room { HasRoomFor node.old.1 node.old.0.state act }
        ensures acted { NodeActed true self.old.0 self.new.0 node.old.0 node.new.0 event act result }
        ensures done { is_ready result ≡ true }
    {
        let ticket = word.draw::<A>(&mut self.pass);
        let reply = node.act(ticket, Some(self.number), act);
        keep_call(&mut self.calls, ticket, event, &reply);
        self.lent = true;
        reply
    }

    /// The same of what crosses a wire between two nodes that were lent, none of which has a full trace.
    pub(crate) fn act_pair<A: Asks>(
        &mut self,
        word: &TicketWord,
        near: &mut Node,
        far: &mut Node,
        joint: Joint,
        event: Event,
    ) -> Reply
        requires word { self.old.0.word_id ≡ word.now.word_id }
        requires deed { A.deed ≡ lent_deed self.old.0.number event (crossed_or (pair_step joint near.old.0 far.old.0)) }
        requires seat_room { 0 < self.old.1 }
        requires free { is_seat_full self.old.0 ≡ false }
        requires ready { is_some (pair_step joint near.old.0 far.old.0) ≡ true }
        requires near_free { is_full near.old.0 ≡ false }
        requires far_free { is_full far.old.0 ≡ false }
        requires near_room { 0 < near.old.1.entries }
        requires far_room { 0 < far.old.1.entries }
        ensures acted { PairActed true self.old.0 self.new.0 near.old.0 near.new.0 far.old.0 far.new.0 event joint result }
        ensures done { is_ready result ≡ true }
    {
        let ticket = word.draw::<A>(&mut self.pass);
        let reply = act_pair(near, far, joint, ticket, Some(self.number));
        keep_call(&mut self.calls, ticket, event, &reply);
        self.lent = true;
        reply
    }

    /// Draws a ticket, and one of the fabric's own nodes acts, under the same conditions. While the ticket is drawn, the seat
    /// has the pass of the node's place.
    pub(crate) fn act_held<N: Naming, A: Asks>(
        &mut self,
        word: &TicketWord,
        held: &mut Held<N>,
        act: Act,
        event: Event,
    ) -> Reply
        requires word { (self.old.0.word_id ≡ word.now.word_id) × (word.now.word_id ≡ N.word) }
        requires asked { AsksNode N.handed.plan event held.old.place act }
        requires deed { A.deed ≡ node_deed self.old.0.number held.old.place event (told_or (recorded_step held.old.node.0 act)) }
        requires seat_room { 0 < self.old.1 }
        requires free { is_seat_full self.old.0 ≡ false }
        requires short { IsWithinLimits act }
        requires ready { is_some (recorded_step held.old.node.0 act) ≡ true }
        requires below { recorded_limit held.old.node.0 act ≡ None }
        requires room { HasRoomFor held.old.node.1 held.old.node.0.state act }
        ensures acted { NodeActed false self.old.0 self.new.0 held.old.node.0 held.new.node.0 event act result }
        ensures done { is_ready result ≡ true }
    {
        let Some(own) = held.pass.take() else {
            unreachable!()
        };
        word.join(&mut self.pass, own);
        let ticket = word.draw::<A>(&mut self.pass);
        held.pass = Some(word.split(&mut self.pass));
        let reply = held.node.act(ticket, Some(self.number), act);
        keep_call(&mut self.calls, ticket, event, &reply);
        reply
    }

    /// The same of what crosses a wire between two of the fabric's own nodes, none of which has a full trace.
    pub(crate) fn act_held_pair<N: Naming, A: Asks>(
        &mut self,
        word: &TicketWord,
        near: &mut Held<N>,
        far: &mut Held<N>,
        joint: Joint,
        event: Event,
    ) -> Reply
        requires word { (self.old.0.word_id ≡ word.now.word_id) × (word.now.word_id ≡ N.word) }
        requires asked { AsksPair N.handed.plan event joint near.old.place far.old.place }
        requires deed { A.deed ≡ pair_deed self.old.0.number near.old.place far.old.place event
            (crossed_or (pair_step joint near.old.node.0 far.old.node.0)) }
        requires seat_room { 0 < self.old.1 }
        requires free { is_seat_full self.old.0 ≡ false }
        requires ready { is_some (pair_step joint near.old.node.0 far.old.node.0) ≡ true }
        requires near_free { is_full near.old.node.0 ≡ false }
        requires far_free { is_full far.old.node.0 ≡ false }
        requires near_room { 0 < near.old.node.1.entries }
        requires far_room { 0 < far.old.node.1.entries }
        ensures acted { PairActed false self.old.0 self.new.0 near.old.node.0 near.new.node.0 far.old.node.0 far.new.node.0
            event joint result }
        ensures done { is_ready result ≡ true }
    {
        let Some(near_pass) = near.pass.take() else {
            unreachable!()
        };
        let Some(far_pass) = far.pass.take() else {
            unreachable!()
        };
        word.join(&mut self.pass, near_pass);
        word.join(&mut self.pass, far_pass);
        let ticket = word.draw::<A>(&mut self.pass);
        far.pass = Some(word.split(&mut self.pass));
        near.pass = Some(word.split(&mut self.pass));
        let reply = act_pair(
            &mut near.node,
            &mut far.node,
            joint,
            ticket,
            Some(self.number),
        );
        keep_call(&mut self.calls, ticket, event, &reply);
        reply
    }

    /// The pass of the seat, and what the seat leaves.
    pub(crate) fn into_parts(self) -> (Pass, SeatCalls)
        ensures word { result.0.word_id ≡ self.0.word_id }
        ensures seat { IsSeat result.0.view self.0.number self.0.calls self.0.lent }
        ensures kept { result.1 ≡ record { number = self.0.number; calls = self.0.calls; lent = self.0.lent } }
    {
        let Seat {
            pass,
            number,
            calls,
            stopped: _,
            lent,
        } = self;
        let kept = SeatCalls {
            number,
            calls: Items::new(calls),
            lent,
        };
        (pass, kept)
    }
}

/// A call joins a list with room for it.
fn keep_call(calls: &mut Vec<Call>, ticket: u64, event: Event, reply: &Reply)
    requires room { length calls.old.items < vec_capacity calls.old }
    ensures { calls.new.items ≡ calls.old.items ++ call_of event ticket reply.now ∷ [] }
{
    let reply = same_reply(reply);
    calls.push_reserved(Call {
        ticket,
        event,
        reply,
    });
}
