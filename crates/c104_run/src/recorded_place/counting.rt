//! Nodes that count what they did, as places of a network with its record.

use super::RecordedPlace;
use c104_node::{CountedNode, TaggedToken};

impl RecordedPlace<TaggedToken> for CountedNode {
    ghost use Rattle.{c104_node.specs.TracedRecords.plain_node, c104_run.specs.RecordedPlaces.counted_keeps};

    // A count leaves nothing at the end.
    type Room = ();

    ghost plain = { λ n. plain_node n.state };

    ghost begun_at = { λ n. n.start };

    ghost fits = { λ plan room. Unit {0} };

    ghost keeps_record = { counted_keeps };

    fn begin(&mut self) {
        CountedNode::begin(self);
    }

    fn retire(self) {
        CountedNode::retire(self);
    }
}
