//! What stands for each node of a network: the node, and whatever is kept beside it.
ghost use Rattle.std.specs.Prelude.{Bool, None, OnOk, Some, false, true, ◌≡◌};
ghost use Rattle.c104_node.specs.{Acts.{IsWithinLimits, wants_memory}, PlaceActs.{ActEnds, HasActed}, Places.{IsFullByTrace, Shown}};
ghost use Rattle.c104_node.specs.{PortActs.act_limit, WiredPlaces.is_linked};

use crate::acts::ActOf;
use crate::node::NodeOf;
use crate::stamps::Stamp;
use c104_switch::ReplyOf;
use c104_token::{NoMemory, TokenKind};

/// A place of a node, as an event sees it: the node can be asked, room can be made for whatever is
/// kept of an act, and then the node can act.
pub trait Place<T: TokenKind> {
    /// What the place shows: its node, and what is kept of it.
    ghost shown: { Self → Shown T };

    /// Whether entries are kept.
    ghost keeps: { Bool };

    /// There is room for whatever is kept of one act.
    ghost has_room: { Self → Type 0 };

    /// The node.
    fn node(&self) -> &NodeOf<T>
        ensures { result.now ≡ (shown self.now).state };

    /// Whether no further entry may be kept.
    fn is_full(&self) -> bool
        ensures { result ≡ (shown self.now).full };

    /// Makes room for whatever is kept of one act, where it isn't full. The only error is out of
    /// memory.
    fn room(&mut self) -> Result<(), NoMemory>
        requires { (shown self.old).full ≡ false }
        ensures shown { shown self.new ≡ shown self.old }
        ensures room { OnOk result (has_room self.new) };

    /// Does an act if the node is ready for it, in the event of this stamp, or answers NotReady and changes nothing: an
    /// act over none but links with wires, and not one that the limit of a list refuses. The number is the terminal's, if
    /// the node is one. The only error is out of memory, for Send and Drain alone, of an act that the node is ready for,
    /// and then nothing has changed.
    fn act(&mut self, number: usize, stamp: Stamp, act: ActOf<T>) -> Result<ReplyOf<T>, NoMemory>
        requires short { IsWithinLimits act }
        requires linked { is_linked (shown self.old).base act ≡ true }
        requires below { act_limit (Some (shown self.old).state) act ≡ None }
        requires room { has_room self.old }
        ensures { ActEnds T.kind keeps number stamp act (shown self.old) result (shown self.new) };

    /// Does an act that wants no memory, as those at the ends of wires do, in the way of `act`.
    fn act_light(&mut self, stamp: Stamp, act: ActOf<T>) -> ReplyOf<T>
        requires short { IsWithinLimits act }
        requires light { wants_memory act ≡ false }
        requires linked { is_linked (shown self.old).base act ≡ true }
        requires below { act_limit (Some (shown self.old).state) act ≡ None }
        requires room { has_room self.old }
        ensures { HasActed T.kind keeps 0 stamp act (shown self.old) result (shown self.new) };

    /// A place is full where its trace is.
    ghost limited: { (place : Self) → IsFullByTrace keeps (shown place) };
}
