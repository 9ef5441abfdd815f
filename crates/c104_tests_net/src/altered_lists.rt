//! Lists of three runs by two workers, altered in every way at places that are chosen from seeds: the audit tells of each
//! the first fault.
//!
//! These fail where the audit passes over one end of a wire, a reply, a ticket or a start, where it tells one fault of all
//! lists, and where it takes none for a run: first it has to find one in the lists as they are.
ghost use Rattle.std.specs.Prelude.{IfSome, ◌≡◌};
ghost use Rattle.{c104_audit.specs.Audits.AreLists, c104_workers.specs.Fabrics.{AreSeatsOf, handed_of}};

use crate::alterations::{ALTERATIONS, Alteration, below, next_number};
use crate::altered_calls::{calls_fault, calls_with};
use crate::altered_nodes::{nodes_with, starts_with, wired_with};
use crate::altered_traces::{Place, trace_fault, trace_with};
use crate::networks::{CUBE, MESH, PLAN, busy_ready, fabric_of, is_run, sent};
use c104_audit::{AuditFault, Call, Lists, audit_lists};
use c104_control::ControlBytes;
use c104_event::Event;
use c104_node::Entry;
use c104_token::Items;
use c104_workers::{Fabric, Gathered, Naming, OpenGate, Ready, Seat, Words, run_workers};
use std::alloc::Global;
use std::marker::Brand;
use std::sync::Wait;
use std::thread::Threads;

/// The altered lists of each run.
const COUNT: usize = 168;

/// What two seats leave of a network on which packets are under way: a command and a packet by the first, and three turns
/// of two workers.
fn left<R: Threads + Wait + Sync>(rt: &R, alloc: Global, text: &[u8]) -> Option<Gathered> {
    let ready = busy_ready(alloc, text, 2)?;
    left_of::<Brand, R>(rt, alloc, ready)
}

fn left_of<N: Naming + Send + Sync, R: Threads + Wait + Sync>(
    rt: &R,
    alloc: Global,
    ready: Ready,
) -> Option<Gathered>
    requires { (ready.word_id ≡ N.word) × (handed_of ready.net ≡ N.handed) }
{
    let (fabric, mut seats) = fabric_of::<N>(alloc, ready)?;
    ask(rt, alloc, &fabric, &mut seats);
    work(rt, alloc, &fabric, &mut seats);
    Some(fabric.close(seats))
}

/// A command and a packet through the first seat.
fn ask<N: Naming, R: Wait>(rt: &R, alloc: Global, fabric: &Fabric<N>, seats: &mut Vec<Seat>)
    requires { AreSeatsOf fabric.now.word_id seats.old.items }
    ensures { AreSeatsOf fabric.now.word_id seats.new.items }
{
    let command = Event::Control {
        switch: 0,
        bytes: ControlBytes::new(&[0x03]),
    };
    if let [first, ..] = seats.as_mut_slice() {
        let _reply = fabric.apply(rt, first, &command);
        if let Some(event) = sent(alloc, 0) {
            let _answer = fabric.apply(rt, first, &event);
        }
    }
}

/// Three turns of a worker for each seat.
fn work<N: Naming + Send + Sync, R: Threads + Wait + Sync>(
    rt: &R,
    alloc: Global,
    fabric: &Fabric<N>,
    seats: &mut Vec<Seat>,
)
    requires { AreSeatsOf fabric.now.word_id seats.old.items }
    ensures { AreSeatsOf fabric.now.word_id seats.new.items }
{
    if !seats.is_empty() {
        let _end = run_workers(
            alloc,
            rt,
            fabric,
            seats.as_mut_slice(),
            &OpenGate,
            Words::Zero,
            3,
        );
    }
}

/// Lists with another trace of a node.
fn with_trace(lists: Lists, node: usize, trace: Vec<Entry>) -> Lists
    requires { AreLists lists }
    ensures { AreLists result }
{
    let mut traces = lists.traces.into_vec();
    if node < traces.len() {
        traces[node] = Items::new(trace);
    }
    Lists {
        traces: Items::new(traces),
        ..lists
    }
}

/// Lists with other calls.
fn with_calls(lists: Lists, calls: Vec<Items<Call>>) -> Lists
    requires { AreLists lists }
    ensures { AreLists result }
{
    Lists {
        calls: Items::new(calls),
        ..lists
    }
}

/// Lists with another start of a node.
fn with_start(lists: Lists, node: usize) -> Lists
    requires { AreLists lists }
    ensures { AreLists result }
{
    Lists {
        starts: starts_with(lists.starts, node),
        ..lists
    }
}

/// Lists with other wired links of a node.
fn with_wired(lists: Lists, node: usize, wired: Items<bool>) -> Lists
    requires { AreLists lists }
    ensures { AreLists result }
{
    Lists {
        nodes: nodes_with(lists.nodes, node, wired),
        ..lists
    }
}

/// Lists that are altered, and the fault that is told of them.
#[derive(Drop)]
struct Altered {
    lists: Lists,
    due: AuditFault,
}

/// The lists, altered at a place that a seed chooses. None where they can't be altered so there.
fn alter(alloc: Global, lists: Lists, alteration: Alteration, seed: u64) -> Option<Altered>
    requires { AreLists lists }
    ensures { IfSome result (λ altered. AreLists altered.lists) }
{
    let further = next_number(seed);
    match alteration {
        Alteration::Start => {
            let node = below(seed, lists.nodes.as_slice().len());
            let due = AuditFault::Before(node);
            let lists = with_start(lists, node);
            Some(Altered { lists, due })
        }
        Alteration::Wired => with_other_link(alloc, lists, seed, below(further, 32)),
        Alteration::CallRemoved
        | Alteration::CallRepeated
        | Alteration::CallsExchanged
        | Alteration::CallMoved
        | Alteration::CallReply => with_other_calls(alloc, lists, alteration, seed, further),
        _ => with_other_trace(alloc, lists, alteration, seed, further),
    }
}

fn with_other_link(alloc: Global, lists: Lists, seed: u64, link: usize) -> Option<Altered>
    requires { AreLists lists }
    ensures { IfSome result (λ altered. AreLists altered.lists) }
{
    let node = below(seed, lists.nodes.as_slice().len());
    let wired = other_links(alloc, &lists, node, link)?;
    let lists = with_wired(lists, node, wired);
    Some(Altered {
        lists,
        due: AuditFault::Shape(node),
    })
}

fn other_links(alloc: Global, lists: &Lists, node: usize, link: usize) -> Option<Items<bool>> {
    let shape = lists.nodes.as_slice().get(node)?;
    wired_with(alloc, shape.wired.as_slice(), link)
}

fn with_other_calls(
    alloc: Global,
    lists: Lists,
    alteration: Alteration,
    seed: u64,
    further: u64,
) -> Option<Altered>
    requires { AreLists lists }
    ensures { IfSome result (λ altered. AreLists altered.lists) }
{
    let seat = below(seed, 2);
    let at = below(further, call_count(&lists, seat));
    let due = calls_fault(alteration, seat)?;
    let calls = calls_with(alloc, &lists, alteration, seat, at)?;
    let lists = with_calls(lists, calls);
    Some(Altered { lists, due })
}

fn call_count(lists: &Lists, seat: usize) -> usize {
    match lists.calls.as_slice().get(seat) {
        Some(calls) => calls.as_slice().len(),
        None => 0,
    }
}

fn with_other_trace(
    alloc: Global,
    lists: Lists,
    alteration: Alteration,
    seed: u64,
    further: u64,
) -> Option<Altered>
    requires { AreLists lists }
    ensures { IfSome result (λ altered. AreLists altered.lists) }
{
    let node = below(seed, lists.traces.as_slice().len());
    let place = Place {
        node,
        at: below(further, entry_count(&lists, node)),
    };
    let due = trace_fault(&lists, alteration, place)?;
    let trace = trace_with(alloc, &lists, alteration, place)?;
    let lists = with_trace(lists, node, trace);
    Some(Altered { lists, due })
}

fn entry_count(lists: &Lists, node: usize) -> usize {
    match lists.traces.as_slice().get(node) {
        Some(trace) => trace.as_slice().len(),
        None => 0,
    }
}

/// Whether the audit tells the first fault of lists that are altered so. None where they can't be.
fn is_seen(alloc: Global, gathered: &Gathered, alteration: Alteration, seed: u64) -> Option<bool> {
    let lists = gathered.lists(alloc).ok()?;
    let altered = alter(alloc, lists, alteration, seed)?;
    Some(match audit_lists(alloc, &altered.lists) {
        Ok(_events) => false,
        Err(fault) => fault == altered.due,
    })
}

/// How many altered lists of what a fabric left are seen, up to `COUNT`, or the first alteration that isn't. One that can't
/// be made at a place is tried at the next: `COUNT * 8` places in all.
fn count_seen(alloc: Global, gathered: &Gathered, first: u64) -> Result<usize, Alteration> {
    let mut seed = first;
    let mut count: usize = 0;
    for number in 0..COUNT * 8 {
        seed = next_number(seed);
        let alteration = ALTERATIONS[number % ALTERATIONS.len()];
        match is_seen(alloc, gathered, alteration, seed) {
            Some(true) => count = count.saturating_add(1),
            Some(false) => return Err(alteration),
            None => {}
        }
        if count == COUNT {
            break;
        }
    }
    Ok(count)
}

/// How many altered lists of a description's run are seen, if each is. None where the lists as they are tell no run.
fn seen<R: Threads + Wait + Sync>(
    rt: &R,
    alloc: Global,
    text: &[u8],
    first: u64,
) -> Option<Result<usize, Alteration>> {
    let gathered = left(rt, alloc, text)?;
    let is_run = is_run(alloc, &gathered);
    let seen = count_seen(alloc, &gathered, first);
    gathered.retire();
    if is_run { Some(seen) } else { None }
}

#[test]
fn altered_lists_of_a_switch(rt: HostRuntime) {
    assert!(rt; seen(&rt, rt.alloc(), PLAN, 1) == Some(Ok(COUNT)));
}

#[test]
fn altered_lists_of_a_mesh(rt: HostRuntime) {
    assert!(rt; seen(&rt, rt.alloc(), MESH, 2) == Some(Ok(COUNT)));
}

#[test]
fn altered_lists_of_a_cube(rt: HostRuntime) {
    assert!(rt; seen(&rt, rt.alloc(), CUBE, 3) == Some(Ok(COUNT)));
}
