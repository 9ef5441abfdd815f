//! The engine of a network: its wires, the places of its nodes, and what a run goes on by.
//!
//! It owns them, so that nothing hands them around: what asks or changes the nodes of a network is a method of it. Whoever has
//! a network over some kind of token and of place has an engine, and beside it what is kept of the network. The places know
//! their wires, and the set of live ones has each at which something of a round may begin: that is what every engine keeps.
ghost use Rattle.std.specs.Prelude.{map, ◌≡◌};
ghost use Rattle.{c104_node.specs.Places.bases, c104_plan.specs.Plans.IsPlan, c104_run.specs.Engines.EngineView};
ghost use Rattle.c104_run.specs.{Engines.{IsEngine, engine_of}, KnownWires.KnowWires};

mod beginning;
mod events;
mod reasons;
mod rounds;
mod standstill;
mod views;

use crate::live_places::LivePlaces;
use crate::wires::Wires;
use c104_node::Place;
use c104_plan::Plan;
use c104_token::TokenKind;
use std::marker::{Model, PhantomData};

/// The engine of a network whose nodes stand at places of a kind.
///
/// It can't be dropped, since switches hold claims: `into_parts` hands the places out.
pub struct Engine<T: TokenKind, P: Place<T>> {
    wires: Wires,
    // The switches in order, and then the terminals.
    places: Vec<P>,
    // The places at which something of a round may begin.
    live: LivePlaces,
    // How many events were done.
    count: u64,
    token: PhantomData<T>,
}

impl<T: TokenKind, P: Place<T>> Model for Engine<T, P> {
    ghost use Rattle.c104_run.specs.Engines.{EngineView, IsEngine, engine_of};

    ghost Value = { EngineView P };

    ghost view = { λ e. engine_of e.wires e.places.items e.count };

    ghost invariant = { λ e. IsEngine T.kind P.shown e.live (engine_of e.wires e.places.items e.count) };
}

impl<T: TokenKind, P: Place<T>> Engine<T, P> {
    /// The engine of a network with these wires and places, where no event was done yet.
    pub fn new(wires: Wires, places: Vec<P>) -> Self
        requires { KnowWires wires (bases (map P.shown places.items)) }
        ensures { result ≡ engine_of wires places.items 0 }
    {
        // The proof reads here what every plan keeps.
        let _plan = wires.plan();
        Engine {
            wires,
            places,
            live: LivePlaces::all(),
            count: 0,
            token: PhantomData,
        }
    }

    /// The same where this many events were done.
    pub fn resumed(wires: Wires, places: Vec<P>, count: u64) -> Self
        requires { KnowWires wires (bases (map P.shown places.items)) }
        ensures { result ≡ engine_of wires places.items count }
    {
        let mut engine = Engine::new(wires, places);
        engine.count = count;
        engine
    }

    /// The plan of the network.
    #[inline(always)]
    pub fn plan(&self) -> &Plan
        ensures plan { result.now ≡ self.now.plan }
        ensures kept { IsPlan self.now.plan }
    {
        self.wires.plan()
    }

    /// The wires of the plan.
    #[inline(always)]
    pub fn wires(&self) -> &Wires
        ensures { result.now ≡ self.now.plan }
    {
        &self.wires
    }

    /// The places: the switches in order, and then the terminals.
    #[inline(always)]
    pub fn places(&self) -> &[P]
        ensures places { result.now ≡ self.now.places }
        ensures knows { KnowWires self.now.plan (bases (map P.shown self.now.places)) }
        ensures planned { IsPlan self.now.plan }
    {
        // The proof reads the rest of the engine by this name.
        let _count = self.count;
        self.places.as_slice()
    }

    /// How many events were done.
    pub fn count(&self) -> u64
        ensures { result ≡ self.now.count }
    {
        self.count
    }

    /// The wires, the places, and how many events were done.
    pub fn into_parts(self) -> (Wires, Vec<P>, u64)
        ensures plan { result.0 ≡ self.plan }
        ensures places { result.1.items ≡ self.places }
        ensures count { result.2 ≡ self.count }
        ensures knows { KnowWires self.plan (bases (map P.shown self.places)) }
        ensures planned { IsPlan self.plan }
    {
        let Engine {
            wires,
            places,
            live: _,
            count,
            token: _,
        } = self;
        (wires, places, count)
    }
}
