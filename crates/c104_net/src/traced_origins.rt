//! Where the packets came from that arrived in a network of tagged tokens, and those of which tokens wait.
ghost use Rattle.std.specs.{Global.Vec as Kept, Prelude.{IfOk, map, option_map, ◌≡◌}};
ghost use Rattle.{c104_net.specs.{RunOrigins.AreOrigins, ToldRuns.TellsEachRun, TracedEnds.traced_end}, c104_node.specs.Tagged.tag};
ghost use Rattle.c104_node.specs.{Tagged.tagged_origins, declared.origins.Origin.Origin as TheOrigin};
ghost use Rattle.c104_run.specs.{FinishedRecords.record_finish, NetRecords.NetRecord, NetViews.{network_input_token, network_output_token}};

use crate::run_origins::Origins;
use c104_event::Port;
use c104_node::{ArrivedOf, Origin, TaggedToken, tagged_origins};
use c104_run::TracedNet;
use c104_token::NoMemory;
use std::alloc::Global;

/// Tells the tokens that wait in a network, with where they came from.
pub trait WaitingTokens {
    /// The network as a record.
    ghost record_of: { Self → NetRecord };

    /// The token at this index, from 0 at the first, of what came in at a port: at an input of a switch, or at a
    /// terminal, where it has yet to arrive. If it is a terminator, it tells its packet. None past the last one, or
    /// where the plan has no such port.
    fn input_token(&self, port: Port, index: usize) -> Option<TaggedToken>
        ensures { result ≡ option_map tag (network_input_token (traced_end (record_finish (record_of self.now))) port index) };

    /// The token at this index, from 0 at the first, of the output of a switch's link. The first goes out next. None
    /// past the last one, or where the plan has no such switch, or a switch no such link.
    fn output_token(&self, switch: usize, link: usize, index: usize) -> Option<TaggedToken>
        ensures { result ≡
            option_map tag (network_output_token (traced_end (record_finish (record_of self.now))) switch link index) };
}

impl WaitingTokens for TracedNet {
    ghost record_of = { λ (r : NetRecord). r };

    fn input_token(&self, port: Port, index: usize) -> Option<TaggedToken>
        ensures { result ≡ option_map tag (network_input_token (traced_end (record_finish self.now)) port index) }
    {
        let engine = self.engine();
        // The proof reads here what every plan keeps.
        let _plan = engine.plan();
        engine.input_token(port, index)
    }

    fn output_token(&self, switch: usize, link: usize, index: usize) -> Option<TaggedToken>
        ensures { result ≡
            option_map tag (network_output_token (traced_end (record_finish self.now)) switch link index) }
    {
        let engine = self.engine();
        // The proof reads here what every plan keeps.
        let _plan = engine.plan();
        engine.output_token(switch, link, index)
    }
}

impl Origins for TracedNet {
    ghost ended = { record_finish };

    /// For each terminal of the plan, in order, the origins of the packets whose terminators arrived there, in the
    /// order of their arrival. The tokens tell them. The only error is out of memory.
    fn origins(&self, alloc: Global) -> Result<Vec<Vec<Origin>>, NoMemory>
        ensures { IfOk result (λ lists.
            AreOrigins (record_finish self.now) (map (λ (list : Kept TheOrigin). list.items) lists.items)) }
    {
        // The proof reads here what every plan keeps.
        let plan = self.plan();
        let _switches = plan.switches();
        let mut lists = Vec::new(alloc);
        let places = self.places();
        for place in places {
            if let Some(arrived) = place.arrived() {
                lists.push(told_origins(alloc, arrived)?)?;
            }
        }
        Ok(lists)
    }

    /// The same of the run that the network would leave. This is a law: nothing is done.
    fn tells_its_run(&self)
        ensures { TellsEachRun (record_finish self.now) }
    {
        // The proof reads by these names what every plan, and every such network, keeps.
        let plan = self.plan();
        let _switches = plan.switches();
        let _places = self.places();
    }
}

/// The origins that the terminators among what arrived tell, in order. The only error is out of memory.
fn told_origins(alloc: Global, arrived: &ArrivedOf<TaggedToken>) -> Result<Vec<Origin>, NoMemory>
    ensures { IfOk result (λ list. list.items ≡ tagged_origins arrived.now) }
{
    let tokens = arrived.to_list(alloc)?;
    tagged_origins(alloc, tokens.as_slice())
}
