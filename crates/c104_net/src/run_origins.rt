//! Where the packets came from that arrived in a run.
ghost use Rattle.std.specs.{Global.Vec as Kept, Prelude.{IfOk, map}};
ghost use Rattle.c104_net.specs.{Replays.TellsOn, RunOrigins.AreOrigins, ToldEvents.told_events, ToldRuns.TellsEachRun};
ghost use Rattle.c104_node.specs.{Starts.start_node, declared.origins.Origin.Origin as TheOrigin};
ghost use Rattle.c104_run.specs.{FinishedRecords.FinishedRecord, NetRecords.fresh_record, Network.network_of};

use crate::replays::replay_all;
use c104_node::Origin;
use c104_run::{Run, TracedNet};
use c104_token::NoMemory;
use std::alloc::Global;

/// Tells where the packets came from that arrived.
pub trait Origins {
    /// What is left where it ends.
    ghost ended: { Self → FinishedRecord };

    /// For each terminal of the plan, in order, the origins of the packets whose terminators arrived there, in the
    /// order of their arrival. The only error is out of memory.
    fn origins(&self, alloc: Global) -> Result<Vec<Vec<Origin>>, NoMemory>
        ensures { IfOk result (λ lists. AreOrigins (ended self.now) (map (λ (list : Kept TheOrigin). list.items) lists.items)) };

    /// Whichever events left the traces of the nodes are those that the traces tell; and over tokens that tell where they
    /// came from the same events end, without that, where these did. This is a law: nothing is done.
    fn tells_its_run(&self)
        ensures { TellsEachRun (ended self.now) };
}

impl Origins for Run {
    ghost ended = { λ (run : FinishedRecord). run };

    /// For each terminal of the plan, in order, the origins of the packets whose terminators arrived there, in the
    /// order of their arrival. The run is done once more, over tokens that tell them. The only error is out of memory.
    fn origins(&self, alloc: Global) -> Result<Vec<Vec<Origin>>, NoMemory>
        ensures { IfOk result (λ lists. AreOrigins self.now (map (λ (list : Kept TheOrigin). list.items) lists.items)) }
    {
        // The proof reads here what every plan keeps.
        let plan = self.plan();
        let _switches = plan.switches();
        let _starts = self.starts();
        let net = replayed(alloc, self)?;
        let lists = net.origins(alloc);
        net.retire();
        lists
    }

    /// Whichever events left the traces of the nodes are those that the traces tell. This is a law: nothing is done.
    fn tells_its_run(&self)
        ensures { TellsEachRun self.now }
    {
        // The proof reads here what every plan and every such run keeps.
        let plan = self.plan();
        let _switches = plan.switches();
        let _starts = self.starts();
    }
}

/// The network in which a run is done once more, from where its nodes started, over tokens that tell the origins of packets.
/// The only error is out of memory.
pub fn replayed(alloc: Global, run: &Run) -> Result<TracedNet, NoMemory>
    ensures { IfOk result (λ net.
        TellsOn (fresh_record (network_of run.now.finished.plan (map start_node run.now.starts)))
        (told_events run.now.finished.plan run.now.traces) net) }
{
    // The proof reads here what every plan keeps.
    let plan = run.plan();
    let _switches = plan.switches();
    let traces = run.traces();
    let starts = run.starts();
    let mut net = TracedNet::from_starts(alloc, plan, starts)?;
    match replay_all(alloc, &mut net, traces) {
        Ok(()) => Ok(net),
        Err(error) => {
            net.retire();
            Err(error)
        }
    }
}
