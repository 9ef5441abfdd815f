//! A network whose nodes are seen with their records, over any kind of token and any kind of place.
ghost use Rattle.std.specs.Prelude.{map, ◌≡◌};
ghost use Rattle.{c104_node.specs.Places.bases, c104_run.specs.{Engines.engine_record, KnownWires.KnowWires, MeteredRuns.MetersEvent}};
ghost use Rattle.c104_run.specs.{NetRecords.{IsNetRecord, NetRecord, RecordsEvent}, RecordedNets.{IsRecordedNet, places_record, reading}};
ghost use Rattle.c104_run.specs.RecordedRuns.{AnswersRecord, DoneLaw};

mod asking;
mod beginning;
mod rounds;

use crate::engine::Engine;
use crate::meter::{Meter, Unmetered};
use crate::recorded_place::{RecordedPlace, retire_places};
use crate::wires::Wires;
use c104_event::{Event, EventFault};
use c104_plan::Plan;
use c104_switch::Reply;
use c104_token::TokenKind;
use std::marker::Model;

/// A network of switches and terminals. In contracts it is one of plain tokens whose nodes keep where they started and
/// what they did since, whatever is kept of that when it runs: a `Net` keeps it, and a `TracedNet` counts it. What it
/// does and answers is the same.
///
/// It can't be dropped, since its switches hold claims: `retire` disposes of it.
pub struct RecordedNet<T: TokenKind, P: RecordedPlace<T>> {
    pub(crate) engine: Engine<T, P>,
    // What such a network has beside its engine.
    pub(crate) room: P::Room,
}

impl<T: TokenKind, P: RecordedPlace<T>> Model for RecordedNet<T, P> {
    ghost use Rattle.c104_run.specs.{Engines.engine_record, NetRecords.NetRecord, RecordedNets.{IsRecordedNet, reading}};

    ghost Value = { NetRecord };

    ghost view = { λ net. engine_record (reading T.kind P.shown P.plain P.begun_at) net.engine };

    ghost invariant = { λ net.
        IsRecordedNet (reading T.kind P.shown P.plain P.begun_at) net.engine.plan net.engine.places net.engine.count
        × P.fits net.engine.plan net.room };
}

impl<T: TokenKind, P: RecordedPlace<T>> RecordedNet<T, P> {
    /// Disposes of the network.
    pub fn retire(self) {
        let RecordedNet { engine, room: _ } = self;
        let (_, places, _) = engine.into_parts();
        retire_places(places);
    }

    /// The plan of the network.
    pub fn plan(&self) -> &Plan
        ensures { result.now ≡ self.now.network.plan }
    {
        self.engine.plan()
    }

    /// The wires of the plan.
    pub fn wires(&self) -> &Wires
        ensures { result.now ≡ self.now.network.plan }
    {
        self.engine.wires()
    }

    /// The engine of the network. With it the network shows what it is in contracts, and what it keeps.
    pub fn engine(&self) -> &Engine<T, P>
        ensures shown { engine_record (reading T.kind P.shown P.plain P.begun_at) result.now ≡ self.now }
        ensures kept { IsRecordedNet (reading T.kind P.shown P.plain P.begun_at)
            result.now.plan result.now.places result.now.count }
    {
        &self.engine
    }

    /// The places of the nodes: the switches in order, and then the terminals. With them the network shows what it
    /// is in contracts, and what it keeps of them.
    pub fn places(&self) -> &[P]
        ensures shown { places_record (reading T.kind P.shown P.plain P.begun_at)
            self.now.network.plan result.now self.now.count ≡ self.now }
        ensures kept { IsRecordedNet (reading T.kind P.shown P.plain P.begun_at)
            self.now.network.plan result.now self.now.count }
        ensures wired { KnowWires self.now.network.plan (bases (map P.shown result.now)) }
    {
        self.engine.places()
    }

    /// The plan of the network, and what the network keeps.
    pub fn told_plan(&self) -> &Plan
        ensures plan { result.now ≡ self.now.network.plan }
        ensures told { IsNetRecord self.now }
    {
        self.engine.plan()
    }

    /// Does an event and answers what came of it, or NotReady where one of its conditions doesn't hold; or refuses
    /// it. Where it was done, each node that acted has one entry more, with the event's number among those that were
    /// done; else nothing has changed.
    ///
    /// The first of these is answered: NoNode, NoLink, NotWired, TooLong; NotReady; OutboxFull, InboxFull, TraceFull,
    /// NoMemory. The order is this emulator's own. Where entries are counted alone, TraceFull comes where a trace
    /// would be full.
    pub fn apply(&mut self, event: &Event) -> Result<Reply, EventFault>
        ensures recorded { RecordsEvent self.old event.now result self.new }
        ensures due { AnswersRecord self.old event.now result self.new }
        ensures done { DoneLaw }
    {
        self.engine.do_event(event, &mut Unmetered)
    }

    /// The same, and tells a meter of the token, where one crosses a wire or arrives.
    #[inline(always)]
    pub fn apply_metered<M: Meter<T>>(
        &mut self,
        event: &Event,
        meter: &mut M,
    ) -> Result<Reply, EventFault>
        ensures recorded { RecordsEvent self.old event.now result self.new }
        ensures due { AnswersRecord self.old event.now result self.new }
        ensures done { DoneLaw }
        ensures metered { MetersEvent T.kind M.sees self.old meter.old event.now result self.new meter.new }
    {
        self.engine.do_event(event, meter)
    }
}
