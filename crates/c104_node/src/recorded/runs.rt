//! The start of a node's run, and its end.
ghost use Rattle.std.specs.{Option.{option_copied, option_to_list}, Prelude.{[], ◌∷◌, ◌≡◌}};
ghost use Rattle.c104_node.specs.{Nodes.{is_switch, terminals_of}, Quiet.{IsQuietNode, node_begin}, Records.IsRecorded, Starts.start_node};
ghost use Rattle.c104_node.specs.Starts.{start_of};

use super::Node;
use crate::acts::Entry;
use crate::node::NodeOf;
use crate::starts::NodeStart;
use crate::terminal::TerminalOf;
use c104_token::{Items, Token};

impl Node {
    /// Starts a run where the node stands, if it is quiet: what it sent and what arrived is forgotten, and what it
    /// did. It takes no memory.
    pub fn begin(&mut self)
        requires { IsQuietNode self.old.0.state }
        ensures begun { self.new.0.state ≡ node_begin self.old.0.state }
        ensures start { self.new.0.start ≡ start_of self.old.0.state }
        ensures trace { self.new.0.trace ≡ [] }
        ensures stands { self.new.0.state ≡ start_node self.new.0.start }
        ensures cap { self.new.0.cap ≡ self.old.0.cap }
        ensures wired { self.new.0.wired ≡ self.old.0.wired }
    {
        write_start(&self.core, &mut self.start);
        self.core.begin();
        self.trace.clear();
    }

    /// The terminal, if the node is one.
    pub fn terminal(&self) -> Option<&TerminalOf<Token>>
        ensures { option_to_list (option_copied result) ≡ terminals_of (self.now.0.state ∷ []) }
    {
        match &self.core {
            NodeOf::Switch(_) => None,
            NodeOf::Terminal(terminal) => Some(terminal),
        }
    }

    /// Retires a switch, or gives the terminal; and where the node started, and what it did since.
    pub fn finish(self) -> (Option<TerminalOf<Token>>, NodeStart, Items<Entry>)
        ensures terminal { option_to_list result.0 ≡ terminals_of (self.0.state ∷ []) }
        ensures start { result.1 ≡ self.0.start }
        ensures trace { result.2 ≡ self.0.trace }
        ensures recorded { IsRecorded self.0 }
    {
        let Node {
            core,
            start,
            trace,
            cap: _,
            wired: _,
            spare: _,
        } = self;
        (core.retire(), start, Items::new(trace))
    }

    /// Disposes of the node, with its trace: a switch is retired.
    pub fn retire(self) {
        let Node {
            core,
            start: _,
            trace: _,
            cap: _,
            wired: _,
            spare: _,
        } = self;
        let _terminal = core.retire();
    }
}

/// Writes where a node stands in place of the start of another of its kind.
fn write_start(core: &NodeOf<Token>, start: &mut NodeStart)
    requires { is_switch (start_node {A = Token} start.old) ≡ is_switch core.now }
    ensures { start.new ≡ start_of core.now }
{
    match core {
        NodeOf::Switch(switch) => match start {
            NodeStart::Switch(start) => switch.write_start(start),
            NodeStart::Terminal(_) => unreachable!(),
        },
        NodeOf::Terminal(terminal) => match start {
            NodeStart::Switch(_) => unreachable!(),
            NodeStart::Terminal(start) => terminal.write_start(start),
        },
    }
}
