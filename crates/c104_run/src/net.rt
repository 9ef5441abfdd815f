//! A network whose nodes keep what they do.
ghost use Rattle.std.specs.{Option.option_copied, Prelude.{IfOk, IsErrOf, IsTrue, OnOk, ℕ, ◌↔◌, ◌≡◌}, Vec.vec_capacity};
ghost use Rattle.{c104_plan.specs.{PlanImage.Fits, Plans.IsPlan}, c104_run.specs.{Finished.run_arrived, FinishedRecords.HaveRunRoom}};
ghost use Rattle.c104_run.specs.{FinishedRecords.record_finish, NetRecords.fresh_record, Network.{network_arrived, new_network}};
ghost use Rattle.c104_run.specs.Network.{placed_network};

mod answers;
mod beginning;
mod nodes;

use crate::engine::Engine;
use crate::faults::PlaceFault;
use crate::recorded_net::RecordedNet;
use crate::recorded_place::retire_places;
use crate::recording::{place_new_recorded, place_recorded};
use crate::run::Run;
use crate::run_parts::{RunParts, parts_of};
use crate::wires::Wires;
use c104_node::{ArrivedOf, Node};
use c104_plan::{Image, Plan};
use c104_token::{NoMemory, Token};
use std::alloc::Global;

/// A network of plain tokens whose nodes keep where they started and what they did since. It has room for what is left
/// at the end, so that `finish` takes no memory.
pub type Net = RecordedNet<Token, Node>;

impl Net {
    /// A network of this plan, each switch of which is reset and not started, no token anywhere, and
    /// nothing done yet. The only error is out of memory.
    pub fn new(alloc: Global, plan: &Plan) -> Result<Self, NoMemory>
        ensures { IfOk result (λ net. net ≡ fresh_record (new_network plan.now)) }
    {
        let frame = Frame::new(alloc, plan)?;
        let mut places = Vec::new(alloc);
        match place_new_recorded(alloc, &frame.wires, &mut places) {
            Ok(()) => Ok(Net {
                engine: Engine::new(frame.wires, places),
                room: frame.room,
            }),
            Err(error) => {
                retire_places(places);
                Err(error)
            }
        }
    }

    /// A network of this plan, each switch of which is started with the image's settings, no token
    /// anywhere, and nothing done yet. NotFitting exactly where the image has other counts of switches
    /// or terminals than the plan; else the only error is out of memory.
    pub fn placed(alloc: Global, plan: &Plan, image: &Image) -> Result<Self, PlaceFault>
        ensures placed { IfOk result (λ net. net ≡ fresh_record (placed_network plan.now image.now)) }
        ensures fits { OnOk result (Fits image.now plan.now) }
        ensures not_fitting { IsErrOf result PlaceFault.NotFitting → Fits image.now plan.now → ⊥ }
        ensures no_memory { IsErrOf result PlaceFault.NoMemory → Fits image.now plan.now }
    {
        if !is_fitting(plan, image) {
            return Err(PlaceFault::NotFitting);
        }
        let net = Net::started(alloc, plan, image)?;
        Ok(net)
    }

    /// A network of this plan, with an image that fits it.
    fn started(alloc: Global, plan: &Plan, image: &Image) -> Result<Self, NoMemory>
        requires { Fits image.now plan.now }
        ensures { IfOk result (λ net. net ≡ fresh_record (placed_network plan.now image.now)) }
    {
        let frame = Frame::new(alloc, plan)?;
        let mut places = Vec::new(alloc);
        match place_recorded(alloc, &frame.wires, image, &mut places) {
            Ok(()) => Ok(Net {
                engine: Engine::new(frame.wires, places),
                room: frame.room,
            }),
            Err(error) => {
                retire_places(places);
                Err(error)
            }
        }
    }

    /// The run up to now, at its end: where each node started, what it did since, and what arrived. The
    /// switches are retired. It takes no memory.
    pub fn finish(self) -> Run
        ensures left { result ≡ record_finish self }
        ensures arrived { (t : ℕ) → run_arrived result.finished t ≡ network_arrived self.network t }
    {
        let Net { engine, room } = self;
        let (wires, places, count) = engine.into_parts();
        // The proof reads here what every plan keeps.
        let _plan = wires.plan();
        let RunParts {
            starts,
            traces,
            terminals,
        } = room;
        let parts = parts_of(places, starts, traces, terminals);
        Run {
            plan: wires.into_plan(),
            parts,
            count,
        }
    }

    /// The tokens that arrived at a terminal since the start, in order. None where the plan has no
    /// such terminal.
    pub fn arrived(&self, terminal: usize) -> Option<&ArrivedOf<Token>>
        ensures { option_copied result ≡ network_arrived self.now.network terminal }
    {
        self.engine.arrived(terminal)
    }
}

/// Whether an image has the counts of a plan, so that a network can be placed with it.
fn is_fitting(plan: &Plan, image: &Image) -> bool
    ensures { IsTrue result ↔ Fits image.now plan.now }
{
    image.fits(plan)
}

/// What a network has beside its nodes: the wires of its plan, and room for what is left at the end.
#[derive(Drop)]
struct Frame {
    wires: Wires,
    room: RunParts,
}

impl Frame {
    /// What a network of this plan has. The only error is out of memory.
    fn new(alloc: Global, plan: &Plan) -> Result<Self, NoMemory>
        ensures wires { IfOk result (λ frame. frame.wires ≡ plan.now) }
        ensures room { IfOk result (λ frame. HaveRunRoom frame.wires
            frame.room.starts.items frame.room.traces.items frame.room.terminals.items
            (vec_capacity frame.room.starts) (vec_capacity frame.room.traces)
            (vec_capacity frame.room.terminals)) }
        ensures kept { IsPlan plan.now }
    {
        let terminals = plan.terminals().len();
        let room = RunParts::with_room(alloc, plan.switches().len() + terminals, terminals)?;
        let copy = plan.clone()?;
        let wires = Wires::new(alloc, copy)?;
        Ok(Frame { wires, room })
    }
}
