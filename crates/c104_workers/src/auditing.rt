//! The audit of what a fabric leaves.
ghost use Rattle.std.specs.{List.range_with_len, Prelude.{All, IfOk, MatchResult, length, map, ◌≡◌}};
ghost use Rattle.c104_audit.specs.{AuditFaults.IsFault, AuditedRuns.{IsKeptStart, IsWholeNode, node_shape}, Audits.{AreLists, IsAudited}};
ghost use Rattle.{c104_audit.specs.Audits.lists_events, c104_node.specs.Records.{has_link, node_trace}, c104_plan.specs.Wiring.wires};
ghost use Rattle.{c104_run.specs.Rounds.link_numbers, c104_workers.specs.Audited.{TellsSeats, lists_of, past_seats, seat_list}};

use crate::calls::SeatCalls;
use crate::closing::Gathered;
use crate::making::traces_of;
use c104_audit::{AuditFault, Call, Lists, NodeShape, audit_lists, copy_calls};
use c104_node::{Entry, Node, NodeStart, copy_entries};
use c104_plan::{Plan, Port, Wire};
use c104_run::Run;
use c104_switch::LINKS;
use c104_token::{Items, NoMemory};
use std::alloc::Global;

/// The wires, and what was known of the nodes when the fabric was made.
#[derive(Drop)]
struct Known {
    wires: Vec<Wire>,
    starts: Vec<NodeStart>,
    before: Vec<Items<Entry>>,
}

/// What the nodes keep.
#[derive(Drop)]
struct Kept {
    nodes: Vec<NodeShape>,
    traces: Vec<Items<Entry>>,
}

impl Gathered {
    /// What the fabric left, as lists, which `audit_lists` can judge. The only error is out of memory.
    pub fn lists(&self, alloc: Global) -> Result<Lists, NoMemory>
        ensures lists { IfOk result (λ lists. lists ≡ lists_of self.now) }
        ensures whole { IfOk result (λ _. All IsWholeNode self.now.nodes) }
        ensures judged { IfOk result (λ lists. AreLists lists) }
    {
        // The proof reads here what the type and every plan keeps.
        let _switches = self.plan().switches();
        self.copied_lists(alloc)
    }

    /// The same: that they can be judged is shown above.
    fn copied_lists(&self, alloc: Global) -> Result<Lists, NoMemory>
        ensures lists { IfOk result (λ lists. lists ≡ lists_of self.now) }
        ensures whole { IfOk result (λ _. All IsWholeNode self.now.nodes) }
    {
        let plan = self.plan();
        let known = self.known(alloc)?;
        let kept = kept_lists(alloc, self.nodes())?;
        let calls = self.calls(alloc)?;
        Ok(Lists {
            first: self.first,
            switches: plan.switches().len(),
            cap: plan.cap(),
            wires: Items::new(known.wires),
            starts: Items::new(known.starts),
            before: Items::new(known.before),
            nodes: Items::new(kept.nodes),
            traces: Items::new(kept.traces),
            calls: Items::new(calls),
        })
    }

    /// The wires, and what was known of the nodes when the fabric was made. The only error is out of memory.
    fn known(&self, alloc: Global) -> Result<Known, NoMemory>
        ensures wires { IfOk result (λ known. known.wires.items ≡ wires self.now.handed.plan) }
        ensures starts { IfOk result (λ known. known.starts.items ≡ self.now.handed.starts) }
        ensures before { IfOk result (λ known. known.before.items ≡ self.now.handed.before) }
    {
        known_lists(
            alloc,
            self.plan(),
            self.starts.as_slice(),
            self.before.as_slice(),
        )
    }

    /// The seats' calls, by the seats' numbers. The only error is out of memory.
    fn calls(&self, alloc: Global) -> Result<Vec<Items<Call>>, NoMemory>
        ensures { IfOk result (λ list.
            list.items ≡ map (λ number. seat_list number self.now.seats) (range_with_len 0 (past_seats self.now.seats))) }
    {
        seat_lists(alloc, self.seats())
    }

    /// The run that the nodes' traces tell, where the lists are those of one run: what the network had done when the
    /// fabric was made, then the seats' calls and nothing else. Otherwise the first fault, with the least number.
    pub fn audit(&self, alloc: Global) -> Result<Run, AuditFault>
        ensures audited { MatchResult result
            (λ run. IsAudited (lists_of self.now))
            (λ fault. IsFault (lists_of self.now) fault) }
        ensures run { IfOk result (λ run. TellsSeats self.now run) }
    {
        // The proof reads here what the type and every plan keeps.
        let _switches = self.plan().switches();
        let count = self.audit_events(alloc)?;
        Ok(Run::of_nodes(alloc, self.plan(), self.nodes(), count as u64)?)
    }

    /// How many events the lists tell, where they are those of one run.
    fn audit_events(&self, alloc: Global) -> Result<usize, AuditFault>
        ensures audited { MatchResult result
            (λ count. IsAudited (lists_of self.now) × All IsWholeNode self.now.nodes)
            (λ fault. IsFault (lists_of self.now) fault) }
        ensures count { IfOk result (λ count. count ≡ length (lists_events (lists_of self.now))) }
    {
        let lists = self.lists(alloc)?;
        let events = audit_lists(alloc, &lists)?;
        Ok(events.len())
    }
}

/// The wires of a plan, and copies of what was known of the nodes. The only error is out of memory.
fn known_lists(
    alloc: Global,
    plan: &Plan,
    starts: &[NodeStart],
    before: &[Items<Entry>],
) -> Result<Known, NoMemory>
    ensures wires { IfOk result (λ known. known.wires.items ≡ wires plan.now) }
    ensures starts { IfOk result (λ known. known.starts.items ≡ starts.now) }
    ensures before { IfOk result (λ known. known.before.items ≡ before.now) }
{
    let wires = all_wires(alloc, plan)?;
    let starts = copied_starts(alloc, starts)?;
    let before = copied_traces(alloc, before)?;
    Ok(Known {
        wires,
        starts,
        before,
    })
}

/// What nodes keep, as lists. The only error is out of memory.
fn kept_lists(alloc: Global, nodes: &[Node]) -> Result<Kept, NoMemory>
    ensures nodes { IfOk result (λ kept. kept.nodes.items ≡ map node_shape nodes.now) }
    ensures traces { IfOk result (λ kept. kept.traces.items ≡ map node_trace nodes.now) }
    ensures whole { IfOk result (λ kept. All IsWholeNode nodes.now) }
{
    let shapes = shapes_of(alloc, nodes)?;
    let traces = traces_of(alloc, nodes)?;
    Ok(Kept {
        nodes: shapes,
        traces,
    })
}

/// All wires of a plan: each terminal's, and then the others. The only error is out of memory.
fn all_wires(alloc: Global, plan: &Plan) -> Result<Vec<Wire>, NoMemory>
    ensures { IfOk result (λ list. list.items ≡ wires plan.now) }
{
    let terminals = plan.terminals();
    let others = plan.wires();
    let mut list = Vec::with_capacity(alloc, terminals.len() + others.len())?;
    for number in 0..terminals.len() {
        list.push(Wire {
            here: Port::Terminal(number),
            there: terminals[number].host_port(),
        })?;
    }
    list.extend_from_slice(others)?;
    Ok(list)
}

/// Copies of where nodes started. The only error is out of memory.
fn copied_starts(alloc: Global, starts: &[NodeStart]) -> Result<Vec<NodeStart>, NoMemory>
    ensures { IfOk result (λ list. list.items ≡ starts.now) }
{
    let mut list = Vec::with_capacity(alloc, starts.len())?;
    for start in starts {
        list.push(start.copy(alloc)?)?;
    }
    Ok(list)
}

/// Copies of traces. The only error is out of memory.
fn copied_traces(alloc: Global, traces: &[Items<Entry>]) -> Result<Vec<Items<Entry>>, NoMemory>
    ensures { IfOk result (λ list. list.items ≡ traces.now) }
{
    let mut list = Vec::with_capacity(alloc, traces.len())?;
    for trace in traces {
        let copy = copy_entries(alloc, trace.as_slice())?;
        list.push(Items::new(copy))?;
    }
    Ok(list)
}

/// What each node keeps of itself. The only error is out of memory.
fn shapes_of(alloc: Global, nodes: &[Node]) -> Result<Vec<NodeShape>, NoMemory>
    ensures shapes { IfOk result (λ list. list.items ≡ map node_shape nodes.now) }
    ensures whole { IfOk result (λ list. All IsWholeNode nodes.now) }
{
    let mut list = Vec::with_capacity(alloc, nodes.len())?;
    for node in nodes {
        list.push(shape_of(alloc, node)?)?;
    }
    Ok(list)
}

/// What a node keeps of itself. The only error is out of memory.
fn shape_of(alloc: Global, node: &Node) -> Result<NodeShape, NoMemory>
    ensures shape { IfOk result (λ shape. shape ≡ node_shape node.now) }
    ensures whole { IfOk result (λ shape. IsWholeNode node.now) }
{
    // The proof reads here what the type of a node keeps.
    let _trace = node.trace();
    let start = copied_start(alloc, node.start())?;
    let wired = wired_links(alloc, node)?;
    Ok(NodeShape {
        is_switch: node.is_switch(),
        cap: node.cap(),
        wired: Items::new(wired),
        start,
    })
}

/// A copy of where a node started. The only error is out of memory.
fn copied_start(alloc: Global, start: &NodeStart) -> Result<NodeStart, NoMemory>
    ensures copy { IfOk result (λ copy. copy ≡ start.now) }
    ensures kept { IfOk result (λ copy. IsKeptStart start.now) }
{
    if let NodeStart::Switch(switch) = start {
        // The proof reads by this name what every start of a switch keeps.
        let _links = switch.links();
    }
    start.copy(alloc)
}

/// For each link of a node whether it has a wire. The only error is out of memory.
fn wired_links(alloc: Global, node: &Node) -> Result<Vec<bool>, NoMemory>
    ensures { IfOk result (λ list. list.items ≡ map (has_link node.now.0.wired) link_numbers) }
{
    let mut list = Vec::with_capacity(alloc, LINKS)?;
    for link in 0..LINKS {
        list.push(node.wired(link))?;
    }
    Ok(list)
}

/// The calls of seats, by their numbers. The only error is out of memory.
fn seat_lists(alloc: Global, seats: &[SeatCalls]) -> Result<Vec<Items<Call>>, NoMemory>
    ensures { IfOk result (λ list.
        list.items ≡ map (λ number. seat_list number seats.now) (range_with_len 0 (past_seats seats.now))) }
{
    let past = past_seats(seats);
    let mut list = Vec::with_capacity(alloc, past)?;
    for number in 0..past {
        let calls = seat_list(alloc, number, seats)?;
        list.push(Items::new(calls))?;
    }
    Ok(list)
}

/// The number past the greatest of seats.
fn past_seats(seats: &[SeatCalls]) -> usize
    ensures { result ≡ past_seats seats.now }
{
    let mut past = 0;
    for seat in seats {
        past = past.max(seat.number as usize + 1);
    }
    past
}

/// The calls of the first seat that has a number. The only error is out of memory.
fn seat_list(alloc: Global, number: usize, seats: &[SeatCalls]) -> Result<Vec<Call>, NoMemory>
    ensures { IfOk result (λ list. list.items ≡ seat_list number seats.now) }
{
    for seat in seats {
        if seat.number as usize == number {
            return copy_calls(alloc, seat.calls.as_slice());
        }
    }
    Ok(Vec::new(alloc))
}
