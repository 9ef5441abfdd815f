//! A node as it lies behind its lock.
//!
//! Beside it lie its place, and the pass with the place's track of the log. So whoever has the lock knows all that the node
//! did, and no event of the node can be done without it.
ghost use Rattle.{c104_audit.specs.Leads.list_at, c104_turns.specs.Calls.place_track, c104_workers.specs.Held.IsHeld};
ghost use Rattle.std.specs.Prelude.{Some, [], slice_get, ◌∷◌, ◌≡◌};

use crate::naming::Naming;
use c104_node::Node;
use c104_tickets::Pass;
use std::marker::{Model, PhantomData};

/// A node of a fabric, with its place and the pass to what is done there.
pub(crate) struct Held<N: Naming> {
    pub(crate) place: usize,
    pub(crate) node: Node,
    // It is away only while an event is done.
    pub(crate) pass: Option<Pass>,
    pub(crate) naming: PhantomData<N>,
}

impl<N: Naming> Model for Held<N> {
    ghost use Rattle.c104_workers.specs.Held.{HeldView, IsHeld};

    ghost Value = { HeldView };

    ghost view = { λ h. record { place = h.place; node = h.node } };

    ghost invariant = { λ h. IsHeld N.word N.handed h.place h.node.0 h.pass };
}

impl<N: Naming> Held<N> {
    /// A node that has done nothing through a seat yet.
    pub(crate) fn new(place: usize, node: Node, pass: Pass) -> Self
        requires word { pass.word_id ≡ N.word }
        requires track { pass.view.tracks ≡ place_track place [] ∷ [] }
        requires start { slice_get N.handed.starts place ≡ Some node.0.start }
        requires trace { node.0.trace ≡ list_at N.handed.before place }
        ensures { result ≡ record { place = place; node = node } }
    {
        Held {
            place,
            node,
            pass: Some(pass),
            naming: PhantomData,
        }
    }

    /// The node, its place, and the pass.
    pub(crate) fn into_parts(self) -> (usize, Node, Pass)
        ensures parts { (result.0 ≡ self.place) × (result.1 ≡ self.node) }
        ensures held { IsHeld N.word N.handed self.place self.node.0 (Some result.2) }
    {
        let Held {
            place,
            node,
            pass,
            naming: _,
        } = self;
        let Some(pass) = pass else { unreachable!() };
        (place, node, pass)
    }
}
