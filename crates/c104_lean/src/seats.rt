//! A seat that counts what is done through it.
//!
//! While an event joins the log, the seat has the passes of the places of the event's nodes.
ghost use Rattle.{c104_lean.specs.{Nodes.{alone_deed, both_deed}, Seats.{first_done, last_ticket}}, c104_node.specs.Acts.plain_reply};
ghost use Rattle.{c104_node.specs.Tagged.tagged_kind, c104_tickets.specs.{Tickets.Each, declared.TheConstants.TICKET_LIMIT}};
ghost use Rattle.c104_turns.specs.{Calls.{IsFresh, IsOwn, after_call, done_call, place_track, seat_track}, FirstSeats.first_seat};
ghost use Rattle.std.specs.Prelude.{[], false, length, map, ◌++◌, ◌<◌, ◌∷◌, ◌≡◌, ◌≤◌};

use c104_event::{Event, EventFault};
use c104_node::TaggedToken;
use c104_switch::ReplyOf;
use c104_tickets::{Asks, DeedLog, Pass};
use crossbeam_utils::CachePadded;
use std::marker::Model;

/// A seat of a shared network. In contracts it has a call of each event that was done through it, in order; when it runs it
/// has their count, and a limit of that.
#[derive(Drop)]
pub struct CountedSeat {
    pass: Pass,
    number: u8,
    count: u64,
    limit: u64,
    // Why the last worker stopped that used the seat, if it did.
    stopped: Option<EventFault>,
    // Another worker's seat is on other lines of a processor's cache.
    apart: CachePadded<()>,
}

impl Model for CountedSeat {
    ghost use Rattle.{c104_lean.specs.Seats.{IsCountedSeat, counted_seat}, c104_turns.specs.Calls.SeatView};

    ghost Value = { SeatView };

    ghost view = { λ s. counted_seat s.pass.word_id s.pass.view s.number s.stopped };

    ghost invariant = { λ s. IsCountedSeat s.pass.view s.number s.count s.limit };
}

impl CountedSeat {
    /// A seat with no call yet, which may have this many.
    pub(crate) fn new(pass: Pass, number: u8, limit: u64) -> Self
        requires fresh { pass.view.tracks ≡ seat_track number [] ∷ [] }
        requires limited { limit ≤ TICKET_LIMIT }
        ensures { result ≡ first_seat pass.word_id pass.view.terms number }
    {
        CountedSeat {
            pass,
            number,
            count: 0,
            limit,
            stopped: None,
            apart: CachePadded::new(()),
        }
    }

    /// The number of the seat, below 64.
    pub fn number(&self) -> u8
        ensures { result ≡ self.now.number }
    {
        self.number
    }

    /// How many events were done through it.
    pub fn count(&self) -> u64
        ensures count { result ≡ length self.now.calls }
        ensures within { result ≤ TICKET_LIMIT }
    {
        self.count
    }

    /// The event's fault at which the last worker stopped that used the seat. None if it did all its turns, or there was
    /// none.
    pub(crate) fn stopped(&self) -> Option<EventFault>
        ensures { result ≡ self.now.stopped }
    {
        self.stopped
    }

    /// Keeps where a worker stopped.
    pub(crate) fn stop(&mut self, stopped: Option<EventFault>)
        ensures { self.new ≡ record self.old { stopped = stopped } }
    {
        self.stopped = stopped;
    }

    /// Whether no further event may be done through it.
    pub(crate) fn is_full(&self) -> bool
        ensures { result ≡ false → length self.now.calls < TICKET_LIMIT }
    {
        self.count >= self.limit
    }

    /// Puts what was done on the node at a place, which has this pass, at the end of the log, and gives the pass back. The caller
    /// says in its proofs which deed that is, by the types. Its ticket is that of the seat's last call.
    pub(crate) fn append_alone<A: Asks>(
        &mut self,
        log: &DeedLog,
        own: Pass,
        place: usize,
        event: &Event,
        reply: &ReplyOf<TaggedToken>,
    ) -> Pass
        requires word { (self.old.word_id ≡ log.now.word_id) × (own.word_id ≡ log.now.word_id) }
        requires track { own.view.tracks ≡ place_track place (first_done own.view.tracks) ∷ [] }
        requires deed { A.deed ≡ alone_deed self.old.number place event.now reply.now }
        requires free { length self.old.calls < TICKET_LIMIT }
        ensures word { result.word_id ≡ log.now.word_id }
        ensures track { result.view.tracks ≡ place_track place
            (first_done own.view.tracks ++ record { ticket = last_ticket self.new.calls; deed = A.deed } ∷ []) ∷ [] }
        ensures fresh { IsFresh self.old (last_ticket self.new.calls) }
        ensures called { self.new ≡
            after_call false self.old event.now (last_ticket self.new.calls) (plain_reply tagged_kind reply.now) }
    {
        log.join(&mut self.pass, own);
        log.append::<A>(&mut self.pass);
        let own = log.split(&mut self.pass);
        self.count += 1;
        own
    }

    /// The same for what crossed a wire between the nodes at two places.
    pub(crate) fn append_both<A: Asks>(
        &mut self,
        log: &DeedLog,
        near: Pass,
        far: Pass,
        places: (usize, usize),
        event: &Event,
        reply: &ReplyOf<TaggedToken>,
    ) -> (Pass, Pass)
        requires word { (self.old.word_id ≡ log.now.word_id) × (near.word_id ≡ log.now.word_id)
            × (far.word_id ≡ log.now.word_id) }
        requires near { near.view.tracks ≡ place_track places.0 (first_done near.view.tracks) ∷ [] }
        requires far { far.view.tracks ≡ place_track places.1 (first_done far.view.tracks) ∷ [] }
        requires deed { A.deed ≡ both_deed self.old.number places event.now reply.now }
        requires free { length self.old.calls < TICKET_LIMIT }
        ensures word { (result.0.word_id ≡ log.now.word_id) × (result.1.word_id ≡ log.now.word_id) }
        ensures near { result.0.view.tracks ≡ place_track places.0
            (first_done near.view.tracks ++ record { ticket = last_ticket self.new.calls; deed = A.deed } ∷ []) ∷ [] }
        ensures far { result.1.view.tracks ≡ place_track places.1
            (first_done far.view.tracks ++ record { ticket = last_ticket self.new.calls; deed = A.deed } ∷ []) ∷ [] }
        ensures fresh { IsFresh self.old (last_ticket self.new.calls) }
        ensures called { self.new ≡
            after_call false self.old event.now (last_ticket self.new.calls) (plain_reply tagged_kind reply.now) }
    {
        log.join(&mut self.pass, near);
        log.join(&mut self.pass, far);
        log.append::<A>(&mut self.pass);
        let far = log.split(&mut self.pass);
        let near = log.split(&mut self.pass);
        self.count += 1;
        (near, far)
    }

    /// The pass of the seat.
    pub(crate) fn into_pass(self) -> Pass
        ensures word { result.word_id ≡ self.word_id }
        ensures track { result.view.tracks ≡ seat_track self.number (first_done result.view.tracks) ∷ [] }
        ensures calls { self.calls ≡ map done_call (first_done result.view.tracks) }
        ensures own { Each IsOwn (first_done result.view.tracks) }
    {
        let CountedSeat {
            pass,
            number: _,
            count: _,
            limit: _,
            stopped: _,
            apart: _,
        } = self;
        pass
    }
}
