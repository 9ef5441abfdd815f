//! A run of a network whose nodes kept what they did.
//!
//! What the type keeps is said of the run alone (`IsFinishedRecord`), and not of the network that left it: so nodes that
//! were gathered from elsewhere make a run too. Room for its lists is made with the network, so `finish` takes no memory.
ghost use Rattle.std.specs.{Option.option_copied, Prelude.{slice_get, ◌≡◌}};
ghost use Rattle.c104_run.specs.{Finished.run_arrived, FinishedRecords.IsFinishedRecord};

use crate::run_parts::RunParts;
use c104_node::{ArrivedOf, Entry, NodeStart};
use c104_plan::Plan;
use c104_token::{Items, Token};
use std::marker::Model;

/// What a run of a network left whose nodes kept what they did: its plan, where each node started, what it
/// did since, and what had arrived at each of the terminals.
#[derive(Drop)]
pub struct Run {
    pub(crate) plan: Plan,
    pub(crate) parts: RunParts,
    pub(crate) count: u64,
}

impl Model for Run {
    ghost use Rattle.c104_run.specs.FinishedRecords.{FinishedRecord, IsFinishedRecord};

    ghost Value = { FinishedRecord };

    ghost view = { λ run. record {
      finished = record { plan = run.plan; terminals = run.parts.terminals.items };
      starts = run.parts.starts.items;
      traces = run.parts.traces.items;
      count = run.count;
    } };

    ghost invariant = { λ run. IsFinishedRecord (record {
      finished = record { plan = run.plan; terminals = run.parts.terminals.items };
      starts = run.parts.starts.items;
      traces = run.parts.traces.items;
      count = run.count;
    }) };
}

impl Run {
    /// The plan of the network.
    pub fn plan(&self) -> &Plan
        ensures { result.now ≡ self.now.finished.plan }
    {
        &self.plan
    }

    /// Where each node started: the switches in order, and then the terminals.
    pub fn starts(&self) -> &[NodeStart]
        ensures starts { result.now ≡ self.now.starts }
        ensures told { IsFinishedRecord self.now }
    {
        // The proof reads the rest of the run by these names.
        let _plan = &self.plan;
        let _count = self.count;
        self.parts.starts.as_slice()
    }

    /// What the node at a place did from its start to the end, in order. None where there is no such node.
    pub fn trace(&self, node: usize) -> Option<&[Entry]>
        ensures { option_copied result ≡ slice_get self.now.traces node }
    {
        match self.parts.traces.get(node) {
            Some(trace) => Some(trace.as_slice()),
            None => None,
        }
    }

    /// What each node did from its start to the end, in order: the switches in order, and then the terminals.
    pub fn traces(&self) -> &[Items<Entry>]
        ensures { result.now ≡ self.now.traces }
    {
        self.parts.traces.as_slice()
    }

    /// How many events were done.
    pub fn count(&self) -> u64
        ensures { result ≡ self.now.count }
    {
        self.count
    }

    /// The tokens that had arrived at a terminal at the end, in order. None where the plan has no
    /// such terminal.
    pub fn arrived(&self, terminal: usize) -> Option<&ArrivedOf<Token>>
        ensures { option_copied result ≡ run_arrived self.now.finished terminal }
    {
        match self.parts.terminals.get(terminal) {
            Some(terminal) => Some(terminal.arrived()),
            None => None,
        }
    }
}
