//! One event on held nodes: on one, and on the two at the ends of a wire.
//!
//! Whether it is ready is told by the node's own answer. The event joins the log behind that, so that only what was done does, and
//! the act is counted last: the seat tells proofs with which ticket.
ghost use Rattle.c104_lean.specs.{Nodes.{AsksBoth, AsksNode}, Seats.{Follows, IsLimitOf}, Working.HasCalls};
ghost use Rattle.c104_node.specs.{Acts.{IsWithinLimits, plain_reply}, PortActs.act_limit, Tagged.tagged_kind, Traces.trace_limit};
ghost use Rattle.{c104_tickets.specs.declared.TheConstants.TICKET_LIMIT, c104_turns.specs.SeatGrowth.IsLaterFault};
ghost use Rattle.std.specs.Prelude.{IfErr, MatchOption, None, Some, length, ◌-◌, ◌<◌, ◌≡◌};

use crate::held::HeldNode;
use crate::seats::CountedSeat;
use crate::sharing::Sharing;
use crate::workers::MOST_TIMES;
use c104_event::{Event, EventFault};
use c104_node::{
    ActOf, CountedNode, Joint, Place, TaggedToken, can_far, can_near, far_act, near_act,
};
use c104_switch::{Reply, ReplyOf};
use c104_tickets::DeedLog;
use c104_token::TokenKind;
use std::marker::Brand;

/// A held node does an act of its own, if it is ready and no limit refuses it.
pub(crate) fn do_alone<N: Sharing>(
    log: &DeedLog,
    seat: &mut CountedSeat,
    held: &mut HeldNode<N>,
    number: usize,
    act: &ActOf<TaggedToken>,
    event: &Event,
) -> Result<Reply, EventFault>
    requires word { (seat.old.word_id ≡ log.now.word_id) × (log.now.word_id ≡ N.word) }
    requires asked { AsksNode N.before.plan event.now held.old.place act.now }
    requires number { number ≡ held.old.place - length N.before.plan.switches }
    requires short { IsWithinLimits act.now }
    ensures { Follows seat.old seat.new event.now result }
{
    if let Some(fault) = limit_of(seat, &held.node, act) {
        if Place::node(&held.node).ready(number, act) {
            return Err(fault);
        }
        return Ok(ReplyOf::NotReady);
    }
    let reply = held.node.attempt(number, act)?;
    if let ReplyOf::NotReady = reply {
        return Ok(ReplyOf::NotReady);
    }
    let Some(own) = held.pass.take() else {
        unreachable!()
    };
    let own = seat.append_alone::<Brand>(log, own, held.place, event, &reply);
    held.pass = Some(own);
    held.node.note(&*seat, act, &reply);
    Ok(plain(reply))
}

/// Something crosses a wire between two held nodes, if both are ready and nothing is full.
pub(crate) fn do_both<N: Sharing>(
    log: &DeedLog,
    seat: &mut CountedSeat,
    near: &mut HeldNode<N>,
    far: &mut HeldNode<N>,
    joint: Joint,
    event: &Event,
) -> Result<Reply, EventFault>
    requires word { (seat.old.word_id ≡ log.now.word_id) × (log.now.word_id ≡ N.word) }
    requires asked { AsksBoth N.before.plan event.now joint near.old.place far.old.place }
    ensures follows { Follows seat.old seat.new event.now result }
    ensures places { (near.new.place ≡ near.old.place) × (far.new.place ≡ far.old.place) }
{
    if !can_near(Place::node(&near.node), joint.crossing, joint.near)
        || !can_far(Place::node(&far.node), joint.crossing, joint.far)
    {
        return Ok(ReplyOf::NotReady);
    }
    if near.node.is_full() || far.node.is_full() || seat.is_full() {
        return Err(EventFault::TraceFull);
    }
    let going = near_act(joint.crossing, joint.near);
    let told = near.node.attempt_light(&going);
    let coming = far_act(joint.crossing, joint.far, &told);
    let _done = far.node.attempt_light(&coming);
    let (Some(near_pass), Some(far_pass)) = (near.pass.take(), far.pass.take()) else {
        unreachable!()
    };
    let places = (near.place, far.place);
    let (near_pass, far_pass) = seat.append_both::<Brand>(
        log, near_pass, far_pass, places, event, &told,
    );
    near.pass = Some(near_pass);
    far.pass = Some(far_pass);
    near.node.note(&*seat, &going, &told);
    far.node.note(&*seat, &coming, &ReplyOf::Done);
    Ok(plain(told))
}

/// The same as often as it is ready, but `MOST_TIMES` at most.
pub(crate) fn cross_often<N: Sharing>(
    log: &DeedLog,
    seat: &mut CountedSeat,
    near: &mut HeldNode<N>,
    far: &mut HeldNode<N>,
    joint: Joint,
    event: &Event,
) -> Result<(), EventFault>
    requires word { (seat.old.word_id ≡ log.now.word_id) × (log.now.word_id ≡ N.word) }
    requires asked { AsksBoth N.before.plan event.now joint near.old.place far.old.place }
    ensures fault { IfErr result (IsLaterFault event.now) }
    ensures called { HasCalls (λ e. e ≡ event.now) seat.old seat.new }
{
    for _time in 0..MOST_TIMES {
        let reply = do_both(log, seat, near, far, joint, event)?;
        if !is_done(&reply) {
            break;
        }
    }
    Ok(())
}

/// Why an act of a node can't be done now: a limit of its lists, or that it or the seat has done as much as it may.
fn limit_of(seat: &CountedSeat, node: &CountedNode, act: &ActOf<TaggedToken>) -> Option<EventFault>
    requires { IsWithinLimits act.now }
    ensures { MatchOption result
        ((act_limit (Some node.now.state) act.now ≡ None) × (length node.now.trace < trace_limit)
        × (length seat.now.calls < TICKET_LIMIT))
        (IsLimitOf act.now) }
{
    if let Some(fault) = Place::node(node).limit(act) {
        return Some(fault);
    }
    if node.is_full() || seat.is_full() {
        return Some(EventFault::TraceFull);
    }
    None
}

/// A reply as it is told, with a plain token.
fn plain(reply: ReplyOf<TaggedToken>) -> Reply
    ensures { result ≡ plain_reply tagged_kind reply }
{
    match reply {
        ReplyOf::Done => ReplyOf::Done,
        ReplyOf::NotReady => ReplyOf::NotReady,
        ReplyOf::Token(token) => ReplyOf::Token(token.plain()),
        ReplyOf::Control(bytes) => ReplyOf::Control(bytes),
    }
}

/// Whether a reply says that something was done.
pub(crate) fn is_done(reply: &Reply) -> bool {
    match reply {
        ReplyOf::NotReady => false,
        _ => true,
    }
}
