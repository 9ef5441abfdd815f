//! One act of one place among all places.
ghost use Rattle.std.specs.{Option.option_copied, Prelude.{Err, IfSome, None, Ok, OnOk, Some, false, if◌then◌else◌, is_some, length, map}};
ghost use Rattle.std.specs.Prelude.{slice_get, true, unwrap_or, ℕ, ◌<◌, ◌≡◌, ◌≢◌, ◌≤◌};
ghost use Rattle.{c104_crossbar.specs.Groups.has_bit, c104_link.specs.Steps.step_at, c104_node.specs.ActLinks.act_link};
ghost use Rattle.c104_node.specs.{Acts.{IsWithinLimits, node_act, nodes_act, wants_memory}, Idle.IsIdleNode, Nodes.Node as TheNode};
ghost use Rattle.c104_node.specs.{Nodes.node_claim, PlaceActs.{AloneDone, HasActedAt}, Places.{HasRoomAt, bases, fulls, states}};
ghost use Rattle.c104_node.specs.{PortActs.act_limit, PortParts.may_act_at, Records.has_link, Traces.full_at, WiredPlaces.is_linked_at};
ghost use Rattle.{c104_regs.specs.declared.registers.TheConstants.LINKS, c104_switch.specs.Claims.IsNextLink};
ghost use Rattle.c104_event.specs.declared.faults.EventFault.TheVariants as fault;
ghost use Rattle.c104_switch.specs.declared.actions.ReplyOf.TheVariants as reply;

use crate::acts::ActOf;
use crate::node::NodeOf;
use crate::place::Place;
use crate::port_part::PortPart;
use crate::stamps::Stamp;
use c104_event::EventFault;
use c104_switch::{LinkSet, ReplyOf};
use c104_token::{NoMemory, TokenKind};

/// The node at a place. None where there is no such place.
#[inline(always)]
pub fn node_at<T: TokenKind, P: Place<T>>(places: &[P], place: usize) -> Option<&NodeOf<T>>
    ensures { option_copied result ≡ slice_get (states (map P.shown places.now)) place }
{
    match places.get(place) {
        Some(found) => Some(found.node()),
        None => None,
    }
}

/// Whether the node at a place would do an act.
#[inline(always)]
pub fn ready_at<T: TokenKind, P: Place<T>>(
    places: &[P],
    place: usize,
    number: usize,
    act: &ActOf<T>,
) -> bool
    ensures { result ≡ is_some (nodes_act T.kind (states (map P.shown places.now)) place number act.now) }
{
    match node_at(places, place) {
        Some(node) => node.ready(number, act),
        None => false,
    }
}

/// Whether no further entry may be kept at a place.
#[inline(always)]
pub fn is_full_at<T: TokenKind, P: Place<T>>(places: &[P], place: usize) -> bool
    ensures { result ≡ full_at (fulls (map P.shown places.now)) place }
{
    match places.get(place) {
        Some(found) => found.is_full(),
        None => false,
    }
}

/// Makes room at a place for whatever is kept of one act, where it isn't full.
#[inline(always)]
pub fn room_at<T: TokenKind, P: Place<T>>(places: &mut [P], place: usize) -> Result<(), NoMemory>
    requires inside { place < length places.old }
    requires free { full_at (fulls (map P.shown places.old)) place ≡ false }
    ensures shown { map P.shown places.new ≡ map P.shown places.old }
    ensures room { OnOk result (HasRoomAt P.has_room places.new place) }
    ensures others { (j : ℕ) → j ≢ place →
        HasRoomAt P.has_room places.old j → HasRoomAt P.has_room places.new j }
{
    let found = &mut places[place];
    found.room()
}

/// The node at a place does an act that it is ready for and that wants no memory, as none at the end of a wire does.
// Inlined, with all that it calls: where the act is known, its other cases go, and the node isn't asked again whether it
// is ready.
#[inline(always)]
pub fn act_at<T: TokenKind, P: Place<T>>(
    places: &mut [P],
    place: usize,
    stamp: Stamp,
    act: ActOf<T>,
) -> ReplyOf<T>
    requires inside { place < length places.old }
    requires light { wants_memory act ≡ false }
    requires linked { is_linked_at (bases (map P.shown places.old)) place act ≡ true }
    requires room { HasRoomAt P.has_room places.old place }
    requires ready { is_some (nodes_act T.kind (states (map P.shown places.old)) place 0 act) ≡ true }
    ensures done { HasActedAt T.kind P.keeps place 0 stamp act
        (map P.shown places.old) result (map P.shown places.new) }
    ensures others { (j : ℕ) → j ≢ place →
        HasRoomAt P.has_room places.old j → HasRoomAt P.has_room places.new j }
{
    let found = &mut places[place];
    match found.act_light(stamp, act) {
        ReplyOf::NotReady => unreachable!(),
        reply => reply,
    }
}

/// The node at a place does an act that no limit refuses, if it is ready for it, where nothing is full. Whether it is
/// ready is told by what it answers, where there is memory for whatever is kept of it.
#[inline(always)]
pub fn attempt_at<T: TokenKind, P: Place<T>>(
    places: &mut [P],
    place: usize,
    number: usize,
    stamp: Stamp,
    act: ActOf<T>,
) -> Result<ReplyOf<T>, EventFault>
    requires inside { place < length places.old }
    requires short { IsWithinLimits act }
    requires lone { act_link act ≡ None }
    requires within { act_limit (slice_get (states (map P.shown places.old)) place) act ≡ None }
    requires free { full_at (fulls (map P.shown places.old)) place ≡ false }
    ensures { AloneDone T.kind P.keeps place number stamp act (map P.shown places.old) result (map P.shown places.new) }
{
    let found = &mut places[place];
    match found.room() {
        Ok(()) => Ok(found.act(number, stamp, act)?),
        Err(_) => without_room(found, number, act),
    }
}

/// What is answered of an act for which no room could be made: NoMemory, if the node is ready for it.
fn without_room<T: TokenKind, P: Place<T>>(
    found: &P,
    number: usize,
    act: ActOf<T>,
) -> Result<ReplyOf<T>, EventFault>
    ensures { result ≡ (if is_some (node_act T.kind number act (P.shown found.now).state)
        then Err fault.NoMemory else Ok reply.NotReady) }
{
    if found.node().ready(number, &act) {
        Err(EventFault::NoMemory)
    } else {
        Ok(ReplyOf::NotReady)
    }
}

/// The links at which the switch at a place may do its act of a part.
#[inline(always)]
pub fn ready_links_at<T: TokenKind, P: Place<T>>(
    places: &[P],
    place: usize,
    part: PortPart,
) -> LinkSet
    ensures { (l : ℕ) → l < LINKS →
        has_bit result l ≡ may_act_at T.kind part (states (map P.shown places.now)) place l }
{
    match node_at(places, place) {
        Some(node) => node.ready_links(part),
        None => LinkSet::new(),
    }
}

/// The next input of the switch at a place, from that of this link on, that wants an output. None
/// where no further one does. An input that is passed over claims no output.
pub fn next_wanting_at<T: TokenKind, P: Place<T>>(
    places: &[P],
    place: usize,
    from: usize,
) -> Option<usize>
    ensures passed { (input output : ℕ) → from ≤ input → input < unwrap_or result LINKS →
        step_at (states (map P.shown places.now)) place (node_claim input output) ≡ None }
    ensures found { IfSome result (λ input. (from ≤ input) × (input < LINKS)) }
{
    match node_at(places, place) {
        Some(node) => node.next_wanting(from),
        None => None,
    }
}

/// The next output of the switch at a place, from this one on, that an input can claim. None where it
/// can claim no further one.
pub fn next_claim_at<T: TokenKind, P: Place<T>>(
    places: &[P],
    place: usize,
    input: usize,
    from: usize,
) -> Option<usize>
    ensures { IsNextLink
        (λ output. is_some (step_at (states (map P.shown places.now)) place (node_claim input output)))
        from result }
{
    match node_at(places, place) {
        Some(node) => node.next_claim(input, from),
        None => None,
    }
}

/// Whether nothing of a round can begin at the node at a place, whose wired links are these. It is so where no node is.
pub fn is_idle_at<T: TokenKind, P: Place<T>>(places: &[P], place: usize, wired: LinkSet) -> bool
    ensures { result ≡ true → (n : TheNode T) → slice_get (states (map P.shown places.now)) place ≡ Some n →
        IsIdleNode T.kind (has_link wired) n }
{
    match node_at(places, place) {
        Some(node) => node.is_idle(wired),
        None => true,
    }
}
