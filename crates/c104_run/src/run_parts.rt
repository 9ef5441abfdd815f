//! What the nodes of a network leave, when they are retired at the end of a run.
ghost use Rattle.std.specs.{Option.option_to_list, Prelude.{All, IfOk, [], length, map, ◌++◌, ◌+◌, ◌≡◌, ◌≤◌}, Vec.vec_capacity};
ghost use Rattle.c104_node.specs.{Nodes.terminals_of, Records.{IsRecorded, NodeRecord, NodeRoom, node_start, node_state, node_trace}};

use c104_node::{Entry, Node, NodeStart, TerminalOf};
use c104_token::{Items, NoMemory, Token};
use std::alloc::Global;

/// What nodes leave: where each started and what it did since, in order, and the terminals among them.
#[derive(Drop)]
pub struct RunParts {
    pub starts: Vec<NodeStart>,
    pub traces: Vec<Items<Entry>>,
    pub terminals: Vec<TerminalOf<Token>>,
}

impl RunParts {
    /// Room for what `nodes` nodes leave, of which `terminals` are terminals. The only error is out of
    /// memory.
    pub fn with_room(alloc: Global, nodes: usize, terminals: usize) -> Result<Self, NoMemory>
        ensures starts { IfOk result (λ parts.
            (parts.starts.items ≡ []) × (nodes ≤ vec_capacity parts.starts)) }
        ensures traces { IfOk result (λ parts.
            (parts.traces.items ≡ []) × (nodes ≤ vec_capacity parts.traces)) }
        ensures terminals { IfOk result (λ parts.
            (parts.terminals.items ≡ []) × (terminals ≤ vec_capacity parts.terminals)) }
    {
        let starts = Vec::with_capacity(alloc, nodes)?;
        let traces = Vec::with_capacity(alloc, nodes)?;
        let terminals = Vec::with_capacity(alloc, terminals)?;
        Ok(RunParts {
            starts,
            traces,
            terminals,
        })
    }
}

/// What nodes leave, in empty lists with room for it. The switches are retired.
pub fn parts_of(
    mut list: Vec<Node>,
    mut starts: Vec<NodeStart>,
    mut traces: Vec<Items<Entry>>,
    mut terminals: Vec<TerminalOf<Token>>,
) -> RunParts
    requires no_start { starts.items ≡ [] }
    requires no_trace { traces.items ≡ [] }
    requires no_terminal { terminals.items ≡ [] }
    requires start_room { length list.items ≤ vec_capacity starts }
    requires trace_room { length list.items ≤ vec_capacity traces }
    requires terminal_room { length (terminals_of (map node_state list.items)) ≤ vec_capacity terminals }
    ensures starts { result.starts.items ≡ map node_start list.items }
    ensures traces { result.traces.items ≡ map node_trace list.items }
    ensures terminals { result.terminals.items ≡ terminals_of (map node_state list.items) }
    ensures recorded { All (λ (node : NodeRecord × NodeRoom). IsRecorded node.0) list.items }
{
    while let Some(node) = list.pop() {
        let (terminal, start, trace) = node.finish();
        starts.push_reserved(start);
        traces.push_reserved(trace);
        push_terminal(&mut terminals, terminal);
    }
    list.destroy_empty();
    starts.reverse();
    traces.reverse();
    terminals.reverse();
    RunParts {
        starts,
        traces,
        terminals,
    }
}

/// A terminal, if there is one, joins a list with room for it.
fn push_terminal(list: &mut Vec<TerminalOf<Token>>, terminal: Option<TerminalOf<Token>>)
    requires { length list.old.items + length (option_to_list terminal) ≤ vec_capacity list.old }
    ensures items { list.new.items ≡ list.old.items ++ option_to_list terminal }
    ensures room { vec_capacity list.new ≡ vec_capacity list.old }
{
    if let Some(terminal) = terminal {
        list.push_reserved(terminal);
    }
}
