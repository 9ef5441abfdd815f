//! The network of a run that has ended.
//!
//! The summary is read off the network itself, which is disposed of after that: in contracts that network is what is left
//! of its run.
ghost use Rattle.std.specs.{Global.Vec as Kept, Prelude.{IfOk, map, option_map, ◌≡◌}};
ghost use Rattle.{c104_net.specs.RunOrigins.AreOrigins, c104_node.specs.declared.origins.Origin.Origin as TheOrigin};
ghost use Rattle.c104_run.specs.{Finished.run_arrived, FinishedRecords.record_finish};
ghost use Rattle.c104_token.specs.declared.tokens.Token.{Token as TheToken};

use c104_net::{Origin, Origins, TracedNet};
use c104_plan::Plan;
use c104_token::{NoMemory, Token};
use std::alloc::Global;
use std::marker::Model;

/// The network of a run that has ended. In contracts it is what is left of such a run: nothing more is done, and what
/// arrived is read in place. It can't be dropped: `retire` disposes of it.
pub struct EndedNet {
    net: TracedNet,
}

impl Model for EndedNet {
    ghost use Rattle.c104_run.specs.FinishedRecords.{FinishedRecord, record_finish};

    ghost Value = { FinishedRecord };

    ghost view = { λ ended. record_finish ended.net };
}

impl EndedNet {
    /// The end of a network's run.
    pub(crate) fn new(net: TracedNet) -> Self
        ensures { result ≡ record_finish net }
    {
        EndedNet { net }
    }

    /// Disposes of the network.
    pub fn retire(self) {
        let EndedNet { net } = self;
        net.retire();
    }

    /// The plan of the network.
    pub fn plan(&self) -> &Plan
        ensures { result.now ≡ self.now.finished.plan }
    {
        self.net.plan()
    }

    /// The tokens that arrived at a terminal, in order. None where the plan has no such terminal. The only error is out
    /// of memory.
    pub fn arrived(&self, alloc: Global, terminal: usize) -> Result<Option<Vec<Token>>, NoMemory>
        ensures { IfOk result (λ list. option_map (λ (l : Kept TheToken). l.items) list
            ≡ run_arrived self.now.finished terminal) }
    {
        self.net.arrived(alloc, terminal)
    }

    /// For each terminal of the plan, in order, the origins of the packets whose terminators arrived there, in the
    /// order of their arrival. The only error is out of memory.
    pub fn origins(&self, alloc: Global) -> Result<Vec<Vec<Origin>>, NoMemory>
        ensures { IfOk result (λ lists.
            AreOrigins self.now (map (λ (list : Kept TheOrigin). list.items) lists.items)) }
    {
        self.net.origins(alloc)
    }
}
