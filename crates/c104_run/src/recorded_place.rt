//! A place of a network that in contracts keeps a record: where its node started, and what it did since.
ghost use Rattle.std.specs.Prelude.{◌≡◌};
ghost use Rattle.c104_node.specs.{Nodes.Node, Quiet.IsQuietNode, Starts.start_node, declared.starts.NodeStart.NodeStart as TheStart};
ghost use Rattle.{c104_plan.specs.Plans.Plan as ThePlan, c104_run.specs.RecordedNets.{KeepsRecord, begun_told, place_told, reading}};
ghost use Rattle.c104_token.specs.declared.tokens.Token.{Token as TheToken};

mod counting;
mod keeping;

use c104_node::Place;
use c104_token::TokenKind;

/// A place whose node is seen with its record, over plain tokens. Whether the entries are kept when it runs, or only
/// counted, is left to each kind of place.
pub trait RecordedPlace<T: TokenKind>: Place<T> {
    /// What a network of such places has beside them.
    type Room: Drop;

    /// The node over plain tokens.
    ghost plain: { Self → Node TheToken };

    /// Where the node started.
    ghost begun_at: { Self → TheStart };

    /// What a network of this plan has beside its places is enough.
    ghost fits: { ThePlan → Self.Room → Type 0 };

    /// Starts a run where the node stands, if it is quiet: what it sent and what arrived is forgotten, and
    /// what it did. It takes no memory.
    fn begin(&mut self)
        requires { IsQuietNode (Self.shown self.old).state }
        ensures begun { place_told Self.shown begun_at self.new ≡ begun_told (place_told Self.shown begun_at self.old) }
        ensures stands { (Self.shown self.new).state ≡ start_node (begun_at self.new) };

    /// Disposes of the node, and of what is kept of it.
    fn retire(self);

    /// The place keeps the record that is seen.
    ghost keeps_record: { KeepsRecord (reading T.kind Self.shown plain begun_at) Self.keeps };
}

/// Disposes of places.
pub fn retire_places<T: TokenKind, P: RecordedPlace<T>>(mut list: Vec<P>) {
    while let Some(place) = list.pop() {
        place.retire();
    }
    list.destroy_empty();
}
