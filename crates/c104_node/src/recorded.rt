//! A node with its record: one switch or terminal, where it started, and what it did since.
ghost use Rattle.std.specs.Prelude.{IsTrue, [], ◌↔◌, ◌≡◌};
ghost use Rattle.c104_node.specs.{Nodes.is_switch, Quiet.IsQuietNode, Records.{HasCap, IsRecorded, has_link, is_full, recorded_token}};
ghost use Rattle.c104_node.specs.Starts.{start_node};

mod acting;
mod copies;
mod pairs;
mod place;
mod runs;

use crate::acts::Entry;
use crate::node::NodeOf;
use crate::starts::NodeStart;
use crate::terminal::SpareOf;
use c104_switch::{LINKS, LinkSet};
use c104_token::Token;
pub use copies::copy_entries;
pub use pairs::{act_pair, ready_pair};
use std::alloc::Global;
use std::marker::Model;

/// The most entries of a trace.
pub const TRACE_LIMIT: usize = 1_048_576;

/// A node of plain tokens, where it started, and what it did since. It is one value, which holds nothing of its
/// network, so that it can be lent or moved to a thread by itself.
///
/// Its type keeps that its trace is a run from its start to its state, over wired links alone and within all limits.
// It is one value with all that it knows and nothing of its network, so it can be lent, or moved to a thread, and its
// type keeps by itself what is proved of it.
pub struct Node {
    core: NodeOf<Token>,
    start: NodeStart,
    trace: Vec<Entry>,
    cap: usize,
    // A terminal's one link is 0.
    wired: LinkSet,
    spare: SpareOf<Token>,
}

impl Model for Node {
    ghost use Rattle.std.specs.{Prelude.{vec_len, ◌-◌}, Vec.vec_capacity};
    ghost use Rattle.c104_node.specs.Records.{IsRecorded, NodeRecord, NodeRoom};

    // What is seen, and the memory that there is for its acts.
    ghost Value = { NodeRecord × NodeRoom };

    ghost view = { λ n. (
      record { cap = n.cap; wired = n.wired; state = n.core; start = n.start; trace = n.trace.items },
      record { entries = vec_capacity n.trace - vec_len n.trace; spare = n.spare },
    ) };

    ghost invariant = { λ n.
        IsRecorded (record { cap = n.cap; wired = n.wired; state = n.core; start = n.start; trace = n.trace.items }) };
}

impl Node {
    /// A node at its start, of which nothing is kept yet.
    pub fn new(
        alloc: Global,
        core: NodeOf<Token>,
        start: NodeStart,
        cap: usize,
        wired: LinkSet,
    ) -> Self
        requires stands { core ≡ start_node start }
        requires sized { HasCap cap start }
        ensures { result.0 ≡ record { cap = cap; wired = wired; state = core; start = start; trace = [] } }
    {
        Node {
            core,
            start,
            trace: Vec::new(alloc),
            cap,
            wired,
            spare: SpareOf::new(alloc),
        }
    }

    /// Where the node started.
    pub fn start(&self) -> &NodeStart
        ensures { result.now ≡ self.now.0.start }
    {
        &self.start
    }

    /// Whether the node is a switch.
    pub fn is_switch(&self) -> bool
        ensures { result ≡ is_switch self.now.0.state }
    {
        match &self.core {
            NodeOf::Switch(_) => true,
            NodeOf::Terminal(_) => false,
        }
    }

    /// The size of its buffers.
    pub fn cap(&self) -> usize
        ensures { result ≡ self.now.0.cap }
    {
        self.cap
    }

    /// Whether a link has a wire. A terminal's one link is 0.
    pub fn wired(&self, link: usize) -> bool
        ensures { result ≡ has_link self.now.0.wired link }
    {
        has_link(self.wired, link)
    }

    /// Whether no token stands at the node, and no packet is under way in it.
    pub fn quiet(&self) -> bool
        ensures { IsTrue result ↔ IsQuietNode self.now.0.state }
    {
        self.core.is_quiet()
    }

    /// The token that would go out next over a link. None where none can.
    pub fn next_token(&self, link: usize) -> Option<Token>
        ensures { result ≡ recorded_token self.now.0 link }
    {
        if has_link(self.wired, link) {
            self.core.next_token(link)
        } else {
            None
        }
    }

    /// What the node did since its start, in order: a run from its start to its state.
    pub fn trace(&self) -> &[Entry]
        ensures trace { result.now ≡ self.now.0.trace }
        ensures recorded { IsRecorded self.now.0 }
    {
        self.trace.as_slice()
    }

    /// Whether no further entry may be kept.
    pub fn is_full(&self) -> bool
        ensures { result ≡ is_full self.now.0 }
    {
        self.trace.len() >= TRACE_LIMIT
    }
}

/// Whether a link is in a set of a switch's links.
fn has_link(set: LinkSet, link: usize) -> bool
    ensures { result ≡ has_link set link }
{
    if link >= LINKS {
        return false;
    }
    match set.next(link, set) {
        Some(found) => found == link,
        None => false,
    }
}
