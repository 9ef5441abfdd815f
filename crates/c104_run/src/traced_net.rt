//! A network of tagged tokens, whose nodes count what they do.
//!
//! It is for runs of which nobody reads the traces. The tokens tell the origins of the packets that arrived, so nothing
//! has to be run a second time to know them, and no entry is kept.
ghost use Rattle.std.specs.Prelude.{IfOk, map, ◌≡◌};
ghost use Rattle.{c104_node.specs.Starts.start_node, c104_run.specs.{Balance.IsSteady, NetRecords.fresh_record, Network.{network_of, new_network}}};
ghost use Rattle.c104_token.specs.declared.tokens.Token.{Token};

mod arriving;
mod nodes;
mod parts;

use crate::engine::Engine;
use crate::recorded_net::RecordedNet;
use crate::recorded_place::retire_places;
use crate::wires::Wires;
use c104_node::{CountedNode, NodeStart, TaggedToken};
use c104_plan::Plan;
use c104_token::NoMemory;
use nodes::{add_nodes, new_starts};
use std::alloc::Global;

/// A network of tokens that tell where their packets came from. Of what its nodes did it keeps how many entries their
/// traces would have, and no entry.
///
/// Of the value that it is in contracts the nodes and the count are there when it runs; `starts` and `traces` are erased,
/// and are what a `Net` would keep.
pub type TracedNet = RecordedNet<TaggedToken, CountedNode>;

impl TracedNet {
    /// A network of this plan, each switch of which is reset and not started, no token anywhere, and
    /// nothing done yet. The only error is out of memory.
    pub fn new(alloc: Global, plan: &Plan) -> Result<Self, NoMemory>
        ensures { IfOk result (λ net. net ≡ fresh_record (new_network plan.now)) }
    {
        // The proof reads here what every plan keeps.
        let _switches = plan.switches();
        let starts = new_starts(alloc, plan)?;
        TracedNet::from_starts(alloc, plan, starts.as_slice())
    }

    /// A network of this plan whose nodes stand at these starts, and nothing done yet. The only error is out of memory.
    pub fn from_starts(alloc: Global, plan: &Plan, starts: &[NodeStart]) -> Result<Self, NoMemory>
        requires { IsSteady {A = Token} (network_of plan.now (map start_node starts.now)) }
        ensures { IfOk result (λ net. net ≡ fresh_record (network_of plan.now (map start_node starts.now))) }
    {
        let copy = plan.clone()?;
        let wires = Wires::new(alloc, copy)?;
        let mut places = Vec::new(alloc);
        match add_nodes(alloc, starts, &mut places) {
            Ok(()) => Ok(TracedNet {
                engine: Engine::new(wires, places),
                room: (),
            }),
            Err(error) => {
                retire_places(places);
                Err(error)
            }
        }
    }
}
