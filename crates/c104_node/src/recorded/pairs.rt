//! What crosses a wire between two nodes.
ghost use Rattle.std.specs.Prelude.{Some, false, is_some, true, ◌<◌, ◌≡◌};
ghost use Rattle.c104_node.specs.{ActLinks.port_link, PortActs.{IsAnswerOf, far_act, near_act}, Records.{after_act, crossed, is_full}};
ghost use Rattle.{c104_node.specs.Records.{pair_step, recorded_step}, c104_switch.specs.Actions.{Reply as TheReply, is_ready}};
ghost use Rattle.c104_switch.specs.declared.actions.ReplyOf.TheVariants as reply;

use super::{Node, has_link};
use crate::crossings::{Joint, can_far, can_near, far_act, near_act};
use c104_event::Port;
use c104_switch::Reply;

impl Node {
    /// Whether the act at the near port of what crosses a wire would be done, if no limit refuses it.
    pub fn gives(&self, joint: Joint) -> bool
        ensures { result ≡ is_some (recorded_step self.now.0 (near_act joint.crossing joint.near)) }
    {
        has_link(self.wired, link_of(joint.near))
            && can_near(&self.core, joint.crossing, joint.near)
    }

    /// Whether the act at its far port would be done, whatever token crosses, if no limit refuses it.
    pub fn takes(&self, joint: Joint) -> bool
        ensures { (told : TheReply) → IsAnswerOf joint.crossing told →
            result ≡ is_some (recorded_step self.now.0 (far_act joint.far told)) }
    {
        has_link(self.wired, link_of(joint.far)) && can_far(&self.core, joint.crossing, joint.far)
    }
}

/// Whether something can cross a wire between two nodes, if no limit refuses it.
pub fn ready_pair(near: &Node, far: &Node, joint: Joint) -> bool
    ensures { result ≡ is_some (pair_step joint near.now.0 far.now.0) }
{
    if !near.gives(joint) {
        return false;
    }
    far.takes(joint)
}

/// Something crosses a wire between two nodes that are ready for it, none of which has a full trace, and each with room
/// for an entry.
pub fn act_pair(
    near: &mut Node,
    far: &mut Node,
    joint: Joint,
    ticket: u64,
    seat: Option<u8>,
) -> Reply
    requires ready { is_some (pair_step joint near.old.0 far.old.0) ≡ true }
    requires near_free { is_full near.old.0 ≡ false }
    requires far_free { is_full far.old.0 ≡ false }
    requires near_room { 0 < near.old.1.entries }
    requires far_room { 0 < far.old.1.entries }
    ensures crossed { pair_step joint near.old.0 far.old.0 ≡
        Some (crossed result near.new.0.state far.new.0.state) }
    ensures near { near.new.0 ≡ after_act near.old.0 (record { ticket = ticket; seat = seat })
        (near_act joint.crossing joint.near) result near.new.0.state }
    ensures far { far.new.0 ≡ after_act far.old.0 (record { ticket = ticket; seat = seat })
        (far_act joint.far result) reply.Done far.new.0.state }
    ensures done { is_ready result ≡ true }
{
    let going = near_act(joint.crossing, joint.near);
    let told = near.act(ticket, seat, going);
    let coming = far_act(joint.crossing, joint.far, &told);
    let _done = far.act(ticket, seat, coming);
    told
}

/// The link of a port; a terminal's one link is 0.
fn link_of(port: Port) -> usize
    ensures { result ≡ port_link port }
{
    match port {
        Port::Switch(_, link) => link,
        Port::Terminal(_) => 0,
    }
}
