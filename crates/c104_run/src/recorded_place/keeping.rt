//! Nodes that keep what they did, as places of a network with its record.

use super::RecordedPlace;
use crate::run_parts::RunParts;
use c104_node::Node;
use c104_token::Token;

impl RecordedPlace<Token> for Node {
    ghost use Rattle.std.specs.Vec.{vec_capacity};
    ghost use Rattle.c104_run.specs.{FinishedRecords.HaveRunRoom, RecordedPlaces.node_keeps};

    // Room for what is left at the end, so that `finish` takes no memory.
    type Room = RunParts;

    ghost plain = { λ n. n.0.state };

    ghost begun_at = { λ n. n.0.start };

    ghost fits = { λ plan room. HaveRunRoom plan room.starts.items room.traces.items room.terminals.items
        (vec_capacity room.starts) (vec_capacity room.traces) (vec_capacity room.terminals) };

    ghost keeps_record = { node_keeps };

    fn begin(&mut self) {
        Node::begin(self);
    }

    fn retire(self) {
        Node::retire(self);
    }
}
