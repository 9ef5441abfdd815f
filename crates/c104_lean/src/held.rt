//! A node as it lies behind its lock.
//!
//! Beside it lie its place, and the pass with the place's track of the log. So whoever has the lock knows all that the node
//! did, and no event of the node can be done without it.
ghost use Rattle.{c104_lean.specs.Nodes.IsHeld, c104_turns.specs.Calls.place_track};
ghost use Rattle.std.specs.Prelude.{Some, [], slice_get, ◌∷◌, ◌≡◌};

use crate::sharing::Sharing;
use c104_node::CountedNode;
use c104_tickets::Pass;
use std::marker::{Model, PhantomData};

/// A node of a shared network, with its place and the pass to what is done there.
pub(crate) struct HeldNode<N: Sharing> {
    pub(crate) place: usize,
    pub(crate) node: CountedNode,
    // It is away only while an event is done.
    pub(crate) pass: Option<Pass>,
    pub(crate) sharing: PhantomData<N>,
}

impl<N: Sharing> Model for HeldNode<N> {
    ghost use Rattle.c104_lean.specs.Nodes.{HeldView, IsHeld};

    ghost Value = { HeldView };

    ghost view = { λ h. record { place = h.place; node = h.node } };

    ghost invariant = { λ h. IsHeld N.word N.before h.place h.node h.pass };
}

impl<N: Sharing> HeldNode<N> {
    /// A node that has done nothing since it was put there.
    pub(crate) fn new(place: usize, node: CountedNode, pass: Pass) -> Self
        requires word { pass.word_id ≡ N.word }
        requires track { pass.view.tracks ≡ place_track place [] ∷ [] }
        requires stood { slice_get N.before.places place ≡ Some node }
        ensures { result ≡ record { place = place; node = node } }
    {
        HeldNode {
            place,
            node,
            pass: Some(pass),
            sharing: PhantomData,
        }
    }

    /// The node, its place, and the pass.
    pub(crate) fn into_parts(self) -> (usize, CountedNode, Pass)
        ensures parts { (result.0 ≡ self.place) × (result.1 ≡ self.node) }
        ensures held { IsHeld N.word N.before self.place self.node (Some result.2) }
    {
        let HeldNode {
            place,
            node,
            pass,
            sharing: _,
        } = self;
        let Some(pass) = pass else { unreachable!() };
        (place, node, pass)
    }
}
