//! Whether a network's run began with its switches started.
ghost use Rattle.std.specs.Prelude.{All, IsTrue, map, ◌↔◌};
ghost use Rattle.c104_node.specs.{Records.node_start, Starts.IsStartedStart};

use super::Net;
use c104_node::Node;

impl Net {
    /// Whether each switch was started where the run began.
    pub fn began_started(&self) -> bool
        ensures { IsTrue result ↔ All IsStartedStart self.now.starts }
    {
        are_started(self.engine.places())
    }
}

/// Whether each of these nodes was started where the run began.
fn are_started(nodes: &[Node]) -> bool
    ensures { IsTrue result ↔ All IsStartedStart (map node_start nodes.now) }
{
    for node in nodes {
        if !node.start().is_started() {
            return false;
        }
    }
    true
}
