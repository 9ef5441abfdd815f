//! A node with its record, as a place of a network.
use super::Node;
use crate::acts::{Act, Entry, same_reply};
use crate::node::NodeOf;
use crate::place::Place;
use crate::stamps::Stamp;
use c104_switch::Reply;
use c104_token::{NoMemory, Token};

impl Place<Token> for Node {
    ghost use Rattle.std.specs.Prelude.{None, OnOk, Some, false, refl, true, ◌<◌, ◌≡◌};
    ghost use Rattle.c104_node.specs.{ActLinks.on_links, Acts.{IsWithinLimits, wants_memory}, PlaceActs.{ActEnds, HasActed}};
    ghost use Rattle.{c104_node.specs.{PortActs.act_limit, Records.{has_link, is_full, node_shown}}, c104_token.specs.Kinds.plain_kind};

    ghost shown = { node_shown };

    ghost keeps = { true };

    ghost limited = { λ n. refl };

    ghost has_room = { λ n. (0 < n.1.entries) × (is_full n.0 ≡ false) };

    fn node(&self) -> &NodeOf<Token>
        ensures { result.now ≡ self.now.0.state }
    {
        &self.core
    }

    #[inline(always)]
    fn is_full(&self) -> bool
        ensures { result ≡ is_full self.now.0 }
    {
        Node::is_full(self)
    }

    #[inline(always)]
    fn room(&mut self) -> Result<(), NoMemory>
        requires { is_full self.old.0 ≡ false }
        ensures shown { node_shown self.new ≡ node_shown self.old }
        ensures room { OnOk result ((0 < self.new.1.entries) × (is_full self.new.0 ≡ false)) }
    {
        self.room_for_entry()
    }

    #[inline(always)]
    fn act(&mut self, number: usize, stamp: Stamp, act: Act) -> Result<Reply, NoMemory>
        requires short { IsWithinLimits act }
        requires linked { on_links (has_link self.old.0.wired) act ≡ true }
        requires below { act_limit (Some self.old.0.state) act ≡ None }
        requires room { (0 < self.old.1.entries) × (is_full self.old.0 ≡ false) }
        ensures { ActEnds plain_kind true number stamp act (node_shown self.old) result (node_shown self.new) }
    {
        let reply = self.core.act(number, &act)?;
        if let Reply::NotReady = reply {
            return Ok(reply);
        }
        let told = same_reply(&reply);
        self.trace.push_reserved(Entry {
            ticket: stamp.ticket,
            act,
            reply: told,
            seat: stamp.seat,
        });
        Ok(reply)
    }

    #[inline(always)]
    fn act_light(&mut self, stamp: Stamp, act: Act) -> Reply
        requires short { IsWithinLimits act }
        requires light { wants_memory act ≡ false }
        requires linked { on_links (has_link self.old.0.wired) act ≡ true }
        requires below { act_limit (Some self.old.0.state) act ≡ None }
        requires room { (0 < self.old.1.entries) × (is_full self.old.0 ≡ false) }
        ensures { HasActed plain_kind true 0 stamp act (node_shown self.old) result (node_shown self.new) }
    {
        match Place::act(self, 0, stamp, act) {
            Ok(reply) => reply,
            Err(_) => unreachable!(),
        }
    }
}
