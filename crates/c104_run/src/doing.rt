//! What an event asks of one node, done at its place.
//!
//! Whether a trace is full is tested right before the first growth, the copy of a packet among them, and so before memory
//! runs out.
ghost use Rattle.std.specs.Prelude.{MatchOption, None, false, is_some, length, map, slice_get, true, unwrap_or, ◌-◌, ◌<◌, ◌≡◌};
ghost use Rattle.c104_node.specs.{ActLinks.act_link, Acts.{IsWithinLimits, nodes_act}, PlaceActs.AloneDone, Places.fulls};
ghost use Rattle.c104_node.specs.{Places.{room_fault, states}, PortActs.act_limit, Traces.full_at};
ghost use Rattle.c104_node.specs.declared.acts.ActOf.TheVariants as act;

use c104_event::EventFault;
use c104_node::{ActOf, Place, SentPacket, Stamp, attempt_at, is_full_at, node_at, ready_at};
use c104_switch::ReplyOf;
use c104_token::{Packet, TokenKind};

/// Why an act that is ready can't be done now: a terminal's list would pass its limit.
#[inline(always)]
fn limit_at<T: TokenKind, P: Place<T>>(
    places: &[P],
    place: usize,
    act: &ActOf<T>,
) -> Option<EventFault>
    requires { IsWithinLimits act.now }
    ensures { result ≡ act_limit (slice_get (states (map P.shown places.now)) place) act.now }
{
    node_at(places, place)?.limit(act)
}

/// Why an act that is ready can't be done now, if something is in the way: a limit of a list, or a full trace.
#[inline(always)]
fn refusal_at<T: TokenKind, P: Place<T>>(
    places: &[P],
    place: usize,
    act: &ActOf<T>,
) -> Option<EventFault>
    requires { IsWithinLimits act.now }
    ensures { MatchOption result
        ((act_limit (slice_get (states (map P.shown places.now)) place) act.now ≡ None)
        × (full_at (fulls (map P.shown places.now)) place ≡ false))
        (λ fault. fault ≡ unwrap_or (act_limit (slice_get (states (map P.shown places.now)) place) act.now)
        (room_fault (full_at (fulls (map P.shown places.now)) place))) }
{
    if let Some(fault) = limit_at(places, place, act) {
        return Some(fault);
    }
    if is_full_at(places, place) {
        return Some(EventFault::TraceFull);
    }
    None
}

/// The node at a place does an act, if it is ready and no limit of a list refuses it.
// Where nothing is in the way it is tried, so that it isn't asked first whether it is ready.
#[inline(always)]
pub fn do_alone<T: TokenKind, P: Place<T>>(
    switches: usize,
    places: &mut [P],
    place: usize,
    act: ActOf<T>,
    stamp: Stamp,
) -> Result<ReplyOf<T>, EventFault>
    requires short { IsWithinLimits act }
    requires lone { act_link act ≡ None }
    ensures { AloneDone T.kind P.keeps place (place - switches) stamp act
        (map P.shown places.old) result (map P.shown places.new) }
{
    let number = place.saturating_sub(switches);
    if place >= places.len() {
        return Ok(ReplyOf::NotReady);
    }
    let Some(fault) = refusal_at(places, place, &act) else {
        return attempt_at(places, place, number, stamp, act);
    };
    if ready_at(places, place, number, &act) {
        return Err(fault);
    }
    Ok(ReplyOf::NotReady)
}

/// The terminal at a place sends a packet, if the limit of its list doesn't refuse it. The packet is copied only then.
#[inline(always)]
pub fn do_send<T: TokenKind, P: Place<T>>(
    switches: usize,
    places: &mut [P],
    place: usize,
    packet: &Packet,
    stamp: Stamp,
) -> Result<ReplyOf<T>, EventFault>
    requires { IsWithinLimits {A = T} (act.Send packet.now) }
    ensures { AloneDone T.kind P.keeps place (place - switches) stamp (act.Send packet.now)
        (map P.shown places.old) result (map P.shown places.new) }
{
    let Some(node) = node_at(places, place) else {
        return Ok(ReplyOf::NotReady);
    };
    if node.waiting().is_none() {
        return Ok(ReplyOf::NotReady);
    }
    if let Some(fault) = node.send_limit(packet) {
        return Err(fault);
    }
    send_open(switches, places, place, packet, stamp)
}

/// The same where it is ready and no limit refuses it.
#[inline(always)]
fn send_open<T: TokenKind, P: Place<T>>(
    switches: usize,
    places: &mut [P],
    place: usize,
    packet: &Packet,
    stamp: Stamp,
) -> Result<ReplyOf<T>, EventFault>
    requires short { IsWithinLimits {A = T} (act.Send packet.now) }
    requires inside { place < length places.old }
    requires ready { is_some
        (nodes_act T.kind (states (map P.shown places.old)) place (place - switches) (act.Send packet.now)) ≡ true }
    requires within { act_limit (slice_get (states (map P.shown places.old)) place) (act.Send packet.now) ≡ None }
    ensures { AloneDone T.kind P.keeps place (place - switches) stamp (act.Send packet.now)
        (map P.shown places.old) result (map P.shown places.new) }
{
    if is_full_at(places, place) {
        return Err(EventFault::TraceFull);
    }
    let Ok(copy) = SentPacket::copy_of(packet) else {
        return Err(EventFault::NoMemory);
    };
    let number = place.saturating_sub(switches);
    attempt_at(places, place, number, stamp, ActOf::Send(copy))
}
