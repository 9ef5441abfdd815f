//! What crosses a wire, done at the nodes of both its ends, or at neither.
ghost use Rattle.std.specs.Prelude.{OnOk, false, is_some, length, map, true, ◌<◌, ◌||◌, ◌≡◌, ◌≢◌};
ghost use Rattle.c104_node.specs.{ActLinks.port_link, Acts.nodes_act, PlaceActs.{HasActedAt, JointDone}, Places.{HasRoomAt, bases}};
ghost use Rattle.c104_node.specs.{Places.{fulls, states}, PortActs.{IsAnswerOf, far_act, near_act}, Traces.full_at, WiredPlaces.links_at};
ghost use Rattle.c104_switch.specs.declared.actions.ReplyOf.{ReplyOf as TheReply};

use crate::crossings::{Crossing, Joint, can_far, can_near, far_act, near_act};
use crate::place::Place;
use crate::places::{act_at, is_full_at, node_at, room_at};
use crate::stamps::Stamp;
use c104_event::{EventFault, Port};
use c104_switch::ReplyOf;
use c104_token::{NoMemory, TokenKind};

/// Something crosses a wire between the nodes at two places, of which the first is ready for it, or nothing changes.
#[inline(always)]
pub fn joint_from<T: TokenKind, P: Place<T>>(
    places: &mut [P],
    near: usize,
    far: usize,
    joint: Joint,
    stamp: Stamp,
) -> Result<ReplyOf<T>, EventFault>
    requires apart { near ≢ far }
    requires near_linked { links_at (bases (map P.shown places.old)) near (port_link joint.near) ≡ true }
    requires far_linked { links_at (bases (map P.shown places.old)) far (port_link joint.far) ≡ true }
    requires goes { is_some
        (nodes_act T.kind (states (map P.shown places.old)) near 0 (near_act joint.crossing joint.near)) ≡ true }
    ensures { JointDone T.kind P.keeps near far joint stamp (map P.shown places.old) result (map P.shown places.new) }
{
    if !can_far_at(places, far, joint) {
        return Ok(ReplyOf::NotReady);
    }
    if are_full_at(places, near, far) {
        return Err(EventFault::TraceFull);
    }
    // All growths come before the first change.
    room_at(places, near)?;
    room_at(places, far)?;
    let told = act_at(places, near, stamp, near_act(joint.crossing, joint.near));
    let _done = come_at(places, far, joint, stamp, &told);
    Ok(told)
}

/// Whether the node at a place would do the act at the port from which something crosses.
#[inline(always)]
pub fn can_near_at<T: TokenKind, P: Place<T>>(
    places: &[P],
    place: usize,
    crossing: Crossing,
    port: Port,
) -> bool
    ensures { result ≡ is_some (nodes_act T.kind (states (map P.shown places.now)) place 0 (near_act crossing port)) }
{
    match node_at(places, place) {
        Some(node) => can_near(node, crossing, port),
        None => false,
    }
}

/// Whether the node at a place would do the act at the other port, whatever token crosses.
#[inline(always)]
fn can_far_at<T: TokenKind, P: Place<T>>(places: &[P], place: usize, joint: Joint) -> bool
    ensures ready { (reply : TheReply T) → IsAnswerOf joint.crossing reply →
        result ≡ is_some (nodes_act T.kind (states (map P.shown places.now)) place 0 (far_act joint.far reply)) }
    ensures inside { result ≡ true → place < length places.now }
{
    match node_at(places, place) {
        Some(node) => can_far(node, joint.crossing, joint.far),
        None => false,
    }
}

/// Whether no further entry may be kept at one of two places.
#[inline(always)]
fn are_full_at<T: TokenKind, P: Place<T>>(places: &[P], near: usize, far: usize) -> bool
    ensures { result ≡ (full_at (fulls (map P.shown places.now)) near || full_at (fulls (map P.shown places.now)) far) }
{
    is_full_at(places, near) || is_full_at(places, far)
}

/// What crosses comes in at the far port, by what the near one answered, of a node that is ready for it.
// An arm for each kind of port, which are alike: in each the compiler knows what act it is.
#[inline(always)]
fn come_at<T: TokenKind, P: Place<T>>(
    places: &mut [P],
    far: usize,
    joint: Joint,
    stamp: Stamp,
    told: &ReplyOf<T>,
) -> ReplyOf<T>
    requires inside { far < length places.old }
    requires answer { IsAnswerOf joint.crossing told.now }
    requires linked { links_at (bases (map P.shown places.old)) far (port_link joint.far) ≡ true }
    requires room { HasRoomAt P.has_room places.old far }
    requires ready { is_some (nodes_act T.kind (states (map P.shown places.old)) far 0 (far_act joint.far told.now)) ≡ true }
    ensures { HasActedAt T.kind P.keeps far 0 stamp (far_act joint.far told.now)
        (map P.shown places.old) result (map P.shown places.new) }
{
    match joint.far {
        Port::Switch(_, _) => act_at(places, far, stamp, far_act(joint.crossing, joint.far, told)),
        Port::Terminal(_) => act_at(places, far, stamp, far_act(joint.crossing, joint.far, told)),
    }
}
