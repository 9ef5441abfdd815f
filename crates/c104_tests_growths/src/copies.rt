//! Copies of what is kept of a node and of a seat.
use crate::calls::PLAN;
use crate::ground::{Ground, Suite, is_right_on};
use crate::growths::{Growing, Refusal, is_right};
use crate::outcomes::Outcome;
use c104_audit::{Call, copy_calls, copy_event};
use c104_event::Event;
use c104_net::Net;
use c104_node::{Node, copy_entries};
use c104_switch::Reply;
use std::alloc::Global;

/// What is copied of a node.
#[derive(Clone, Copy)]
enum Part {
    Trace,
    Entries,
    Start,
    Numbers,
    StartNumbers,
}

/// A part of a node is copied.
#[derive(Drop)]
struct Copying<'a>(&'a Node, Part);

impl Growing for Copying<'_> {
    fn call(&self, alloc: Global, refusal: Refusal) -> Outcome {
        refusal.begin(alloc);
        let found = match self.1 {
            Part::Trace => Outcome::of(self.0.copy_trace(alloc)),
            Part::Entries => Outcome::of(copy_entries(alloc, self.0.trace())),
            Part::Start => Outcome::of(self.0.start().copy(alloc)),
            Part::Numbers => Outcome::of(self.0.copy_start(alloc)),
            Part::StartNumbers => Outcome::of(self.0.start().numbers(alloc)),
        };
        refusal.end(alloc);
        found
    }
}

fn are_parts_copied(rt: &HostRuntime, node: &Node) -> bool {
    is_right(rt, "Node::copy_trace", &Copying(node, Part::Trace))
        && is_right(rt, "copy_entries", &Copying(node, Part::Entries))
        && is_right(rt, "NodeStart::copy", &Copying(node, Part::Start))
        && is_right(rt, "Node::copy_start", &Copying(node, Part::Numbers))
        && is_right(rt, "NodeStart::numbers", &Copying(node, Part::StartNumbers))
}

/// The parts of each node of the first run's network are copied.
#[derive(Drop)]
struct NodeCopies;

impl Suite for NodeCopies {
    fn is_right(&self, rt: &HostRuntime, ground: Ground<'_>) -> bool {
        let Some(net) = ground.net_after(rt.alloc(), usize::MAX) else {
            return false;
        };
        let are_copied = are_copied(rt, &net, ground);
        net.retire();
        are_copied
    }
}

fn are_copied(rt: &HostRuntime, net: &Net, ground: Ground<'_>) -> bool {
    for place in 0..ground.plan.switches().len() + ground.plan.terminals().len() {
        let is_copied = match net.node(place) {
            Some(node) => are_parts_copied(rt, node),
            None => false,
        };
        if !is_copied {
            return false;
        }
    }
    true
}

/// An event is copied.
#[derive(Drop)]
struct CopyingEvent<'a>(&'a Event);

impl Growing for CopyingEvent<'_> {
    fn call(&self, alloc: Global, refusal: Refusal) -> Outcome {
        refusal.begin(alloc);
        let result = copy_event(self.0);
        refusal.end(alloc);
        Outcome::of(result)
    }
}

/// Calls are copied.
#[derive(Drop)]
struct CopyingCalls<'a>(&'a [Call]);

impl Growing for CopyingCalls<'_> {
    fn call(&self, alloc: Global, refusal: Refusal) -> Outcome {
        refusal.begin(alloc);
        let result = copy_calls(alloc, self.0);
        refusal.end(alloc);
        Outcome::of(result)
    }
}

/// The event that sends a packet is copied, alone and in a call.
#[derive(Drop)]
struct CallCopies;

impl Suite for CallCopies {
    fn is_right(&self, rt: &HostRuntime, ground: Ground<'_>) -> bool {
        let Some(event) = ground.events.first() else {
            return false;
        };
        is_right(rt, "copy_event", &CopyingEvent(event)) && is_call_copied(rt, event)
    }
}

fn is_call_copied(rt: &HostRuntime, event: &Event) -> bool {
    match copy_event(event) {
        Ok(event) => {
            let call = Call {
                ticket: 0,
                event,
                reply: Reply::Done,
            };
            is_right(rt, "copy_calls", &CopyingCalls(std::slice::from_ref(&call)))
        }
        Err(_) => false,
    }
}

#[test]
fn nodes(rt: HostRuntime) {
    assert!(rt; is_right_on(&rt, PLAN, &NodeCopies));
}

#[test]
fn calls(rt: HostRuntime) {
    assert!(rt; is_right_on(&rt, PLAN, &CallCopies));
}
