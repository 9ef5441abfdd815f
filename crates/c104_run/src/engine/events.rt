//! One event of a network: one act, or one at each end of a wire.
ghost use Rattle.std.specs.Prelude.{map, ◌≡◌};
ghost use Rattle.{c104_node.specs.Traces.seatless, c104_plan.specs.Plans.IsPlan, c104_run.specs.Engines.engine_network};
ghost use Rattle.c104_run.specs.{EventsAtPlaces.{EventDone, told_answer}, Meters.{meter_if, own_reply}, NetRecords.{is_done, ticket_after}};

use crate::asked::{Asked, acts_of};
use crate::doing::{do_alone, do_send};
use crate::engine::Engine;
use crate::meter::{Meter, tell};
use c104_event::{Event, EventFault};
use c104_node::{Place, Stamp, can_near_at, joint_from};
use c104_switch::{Reply, ReplyOf};
use c104_token::TokenKind;

impl<T: TokenKind, P: Place<T>> Engine<T, P> {
    /// Does an event: the acts that it asks, or none. It is counted where it was done, and its number is its ticket. A meter
    /// is told of the token that crosses or arrives.
    pub fn do_event<M: Meter<T>>(
        &mut self,
        event: &Event,
        meter: &mut M,
    ) -> Result<Reply, EventFault>
        ensures plan { self.new.plan ≡ self.old.plan }
        ensures done { EventDone T.kind P.keeps self.old.plan (seatless self.old.count) event.now
            (map P.shown self.old.places) result (map P.shown self.new.places) }
        ensures count { self.new.count ≡ ticket_after self.old.count (is_done result) }
        ensures metered { meter.new ≡ meter_if M.sees (is_done result) meter.old event.now
            (own_reply T.kind (engine_network P.shown self.old) event.now) }
        ensures kept { IsPlan self.old.plan }
    {
        // Each arm is a code of its own for its kind of event, in which it is known what acts are asked: a control command
        // takes about 70 instructions less than by one call for all kinds. The last is that of Drain.
        match event {
            Event::Cross(_) => self.do_asked(event, meter),
            Event::Credit(_) => self.do_asked(event, meter),
            Event::Input { .. } => self.do_asked(event, meter),
            Event::Claim { .. } => self.do_asked(event, meter),
            Event::Control { .. } => self.do_asked(event, meter),
            Event::Send { .. } => self.do_asked(event, meter),
            _ => self.do_asked(event, meter),
        }
    }

    /// The same, whatever the kind of event.
    #[inline(always)]
    fn do_asked<M: Meter<T>>(&mut self, event: &Event, meter: &mut M) -> Result<Reply, EventFault>
        ensures plan { self.new.plan ≡ self.old.plan }
        ensures done { EventDone T.kind P.keeps self.old.plan (seatless self.old.count) event.now
            (map P.shown self.old.places) result (map P.shown self.new.places) }
        ensures count { self.new.count ≡ ticket_after self.old.count (is_done result) }
        ensures metered { meter.new ≡ meter_if M.sees (is_done result) meter.old event.now
            (own_reply T.kind (engine_network P.shown self.old) event.now) }
        ensures kept { IsPlan self.old.plan }
    {
        let asked = acts_of(&self.wires, event)?;
        let switches = self.wires.plan().switches().len();
        let stamp = Stamp {
            ticket: self.count,
            seat: None,
        };
        let places = self.places.as_mut_slice();
        let answer = match asked {
            Asked::Alone(place, act) => do_alone(switches, places, place, act, stamp),
            Asked::Send(place, packet) => do_send(switches, places, place, packet, stamp),
            Asked::Joint(near, far, joint) => {
                if can_near_at(places, near, joint.crossing, joint.near) {
                    joint_from(places, near, far, joint, stamp)
                } else {
                    Ok(ReplyOf::NotReady)
                }
            }
        };
        tell(meter, event, &answer);
        let told = answered(answer);
        self.count = ticket_after(self.count, was_done(&told));
        self.live.fill();
        told
    }
}

/// An answer as it is told, with a plain token.
#[inline(always)]
fn answered<T: TokenKind>(answer: Result<ReplyOf<T>, EventFault>) -> Result<Reply, EventFault>
    ensures { result ≡ told_answer T.kind answer }
{
    match answer {
        Ok(ReplyOf::Done) => Ok(Reply::Done),
        Ok(ReplyOf::NotReady) => Ok(Reply::NotReady),
        Ok(ReplyOf::Token(token)) => Ok(Reply::Token(token.plain())),
        Ok(ReplyOf::Control(bytes)) => Ok(Reply::Control(bytes)),
        Err(fault) => Err(fault),
    }
}

/// How many events were done, after one that may have been.
// Saturating: no network comes near the end, since its traces are full long before.
fn ticket_after(count: u64, done: bool) -> u64
    ensures { result ≡ ticket_after count done }
{
    if done { count.saturating_add(1) } else { count }
}

/// Whether an event that was answered so was done.
fn was_done(answer: &Result<Reply, EventFault>) -> bool
    ensures { result ≡ is_done answer.now }
{
    match answer {
        Ok(Reply::NotReady) => false,
        Ok(_) => true,
        Err(_) => false,
    }
}
