//! The run that nodes tell which were taken out of a network.
ghost use Rattle.std.specs.Prelude.{All, IfOk, OnOk, [], map, ◌++◌, ◌∷◌, ◌≡◌};
ghost use Rattle.{c104_node.specs.{Nodes.terminals_of, Records.{node_start, node_state, node_trace}}, c104_run.specs.NodeRuns.IsKeptNode};
ghost use Rattle.c104_run.specs.NodeRuns.{TellRun, nodes_run};

use crate::run::Run;
use crate::run_parts::RunParts;
use c104_node::{Entry, Node, NodeStart, TerminalOf};
use c104_plan::Plan;
use c104_token::{Items, NoMemory, Token};
use std::alloc::Global;

impl Run {
    /// The run that the traces of nodes tell, of `count` events, in a network of this plan: copies of the plan, of where
    /// each node started and what it did since, and of the terminals. The only error is out of memory.
    pub fn of_nodes(
        alloc: Global,
        plan: &Plan,
        nodes: &[Node],
        count: u64,
    ) -> Result<Self, NoMemory>
        requires { TellRun plan.now nodes.now count }
        ensures { IfOk result (λ run. run ≡ nodes_run plan.now nodes.now count) }
    {
        // The proof reads here what every plan keeps.
        let _switches = plan.switches();
        let parts = copied_parts(alloc, nodes)?;
        let copy = plan.clone()?;
        Ok(Run {
            plan: copy,
            parts,
            count,
        })
    }
}

/// Copies of what nodes leave to a run. The only error is out of memory.
fn copied_parts(alloc: Global, nodes: &[Node]) -> Result<RunParts, NoMemory>
    ensures starts { IfOk result (λ parts. parts.starts.items ≡ map node_start nodes.now) }
    ensures traces { IfOk result (λ parts. parts.traces.items ≡ map node_trace nodes.now) }
    ensures terminals { IfOk result (λ parts. parts.terminals.items ≡ terminals_of (map node_state nodes.now)) }
    ensures kept { IfOk result (λ parts. All IsKeptNode nodes.now) }
{
    let starts = copied_starts(alloc, nodes)?;
    let traces = copied_traces(alloc, nodes)?;
    let terminals = copied_terminals(alloc, nodes)?;
    Ok(RunParts {
        starts,
        traces,
        terminals,
    })
}

/// Copies of where nodes started. The only error is out of memory.
fn copied_starts(alloc: Global, nodes: &[Node]) -> Result<Vec<NodeStart>, NoMemory>
    ensures { IfOk result (λ list. list.items ≡ map node_start nodes.now) }
{
    let mut list = Vec::with_capacity(alloc, nodes.len())?;
    for node in nodes {
        let start = node.start().copy(alloc)?;
        list.push(start)?;
    }
    Ok(list)
}

/// Copies of what nodes did. The only error is out of memory.
fn copied_traces(alloc: Global, nodes: &[Node]) -> Result<Vec<Items<Entry>>, NoMemory>
    ensures traces { IfOk result (λ list. list.items ≡ map node_trace nodes.now) }
    ensures kept { IfOk result (λ list. All IsKeptNode nodes.now) }
{
    let mut list = Vec::with_capacity(alloc, nodes.len())?;
    for node in nodes {
        // The proof reads here what every node keeps.
        let _trace = node.trace();
        let trace = node.copy_trace(alloc)?;
        list.push(Items::new(trace))?;
    }
    Ok(list)
}

/// Copies of the terminals among nodes, in order. The only error is out of memory.
fn copied_terminals(alloc: Global, nodes: &[Node]) -> Result<Vec<TerminalOf<Token>>, NoMemory>
    ensures { IfOk result (λ list. list.items ≡ terminals_of (map node_state nodes.now)) }
{
    let mut list = Vec::new(alloc);
    for node in nodes {
        add_terminal(alloc, node, &mut list)?;
    }
    Ok(list)
}

/// A copy of a terminal joins a list, if the node is one. The only error is out of memory.
fn add_terminal(
    alloc: Global,
    node: &Node,
    list: &mut Vec<TerminalOf<Token>>,
) -> Result<(), NoMemory>
    ensures { OnOk result (list.new.items ≡ list.old.items ++ terminals_of (node_state node.now ∷ [])) }
{
    if let Some(terminal) = node.terminal() {
        let copy = terminal.copy(alloc)?;
        list.push(copy)?;
    }
    Ok(())
}
