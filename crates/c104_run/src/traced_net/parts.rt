//! The parts of a network of tagged tokens, and the network of parts.
ghost use Rattle.std.specs.Prelude.{length, map, ◌≡◌, ◌≤◌};
ghost use Rattle.{c104_node.specs.{Places.bases, TracedRecords.counted_shown}, c104_plan.specs.Plans.IsPlan};
ghost use Rattle.c104_run.specs.{KnownWires.KnowWires, NetParts.node_count, RecordedNets.{IsRecordedNet, places_record}, RecordedPlaces.counted_reading};

use super::TracedNet;
use crate::engine::Engine;
use crate::wires::Wires;
use c104_node::CountedNode;

impl TracedNet {
    /// How many events were done since the start: at most 320 times the most entries of a node.
    pub fn count(&self) -> u64
        ensures count { result ≡ self.now.count }
        ensures few { result ≤ 335544320 }
    {
        // The proof reads here what every plan keeps, and what every network does.
        let _plan = self.engine.plan();
        let _nodes = self.engine.places();
        self.engine.count()
    }

    /// The parts of the network: its plan with its wires, its nodes, each with what it did, and how many events were done. It
    /// takes no memory. They keep what the network kept.
    pub fn into_parts(self) -> (Wires, Vec<CountedNode>, u64)
        ensures shown { places_record counted_reading result.0 result.1.items result.2 ≡ self }
        ensures kept { IsRecordedNet counted_reading result.0 result.1.items result.2 }
        ensures wired { KnowWires result.0 (bases (map counted_shown result.1.items)) }
        ensures planned { IsPlan result.0 }
        ensures nodes { length result.1.items ≡ node_count result.0 }
        ensures few { result.2 ≤ 335544320 }
    {
        let TracedNet { engine, room: _ } = self;
        engine.into_parts()
    }

    /// The network of parts that are those of one run.
    pub fn of_parts(wires: Wires, nodes: Vec<CountedNode>, count: u64) -> Self
        requires kept { IsRecordedNet counted_reading wires nodes.items count }
        requires wired { KnowWires wires (bases (map counted_shown nodes.items)) }
        ensures { result ≡ places_record counted_reading wires nodes.items count }
    {
        TracedNet {
            engine: Engine::resumed(wires, nodes, count),
            room: (),
        }
    }
}
