//! The nodes of a network, each by itself.
ghost use Rattle.std.specs.{Option.option_copied, Prelude.{IfSome, MatchOption, None, slice_get, ℕ, ◌≡◌, ◌≤◌}};
ghost use Rattle.{c104_node.specs.Records.has_link, c104_run.specs.{KnownWires.is_linked_end, NetParts.parts_record}};
ghost use Rattle.c104_run.specs.{NetRecords.IsNetRecord, WiredActs.{IsRecordedAt, IsRecordedNode}};

use super::Net;
use crate::net_parts::NetParts;
use c104_node::{Entry, Node};

impl Net {
    /// The node at a place: the switches in order, and then the terminals. None where there is no such node.
    pub fn node(&self, place: usize) -> Option<&Node>
        ensures node { MatchOption result (slice_get self.now.traces place ≡ None)
            (λ node. IsRecordedNode self.now place node.now.0) }
        ensures linked { IfSome result (λ node. (l : ℕ) →
            has_link node.now.0.wired l ≡ is_linked_end self.now.network.plan place l) }
    {
        // The proof reads here what every plan keeps.
        let _plan = self.engine.plan();
        match self.engine.places().get(place) {
            Some(node) => {
                // And here what every node keeps.
                let _trace = node.trace();
                Some(node)
            }
            None => None,
        }
    }

    /// What the node at a place did since its start, in order. None where there is no such node.
    pub fn trace(&self, node: usize) -> Option<&[Entry]>
        ensures trace { option_copied result ≡ slice_get self.now.traces node }
        ensures told { IsNetRecord self.now }
        ensures recorded { IsRecordedAt self.now node }
    {
        let _told = self.told_plan();
        match self.node(node) {
            Some(found) => Some(found.trace()),
            None => None,
        }
    }

    /// How many events were done since the start: at most 320 times the most entries of a node.
    pub fn count(&self) -> u64
        ensures count { result ≡ self.now.count }
        ensures few { result ≤ 335544320 }
    {
        // The proof reads here what every plan keeps, and what every engine does.
        let _plan = self.engine.plan();
        let _nodes = self.engine.places();
        self.engine.count()
    }

    /// The parts of the network: its plan, its nodes, each with what it did, and how many events were done. It takes no
    /// memory.
    pub fn into_nodes(self) -> NetParts
        ensures { parts_record result ≡ self }
    {
        let Net { engine, room: _ } = self;
        let (wires, places, count) = engine.into_parts();
        NetParts::new(wires, places, count)
    }
}
