//! Events on nodes that are lent, through a seat: of another network of the same plan, so that it is known of each node
//! what it kept.
ghost use Rattle.std.specs.Prelude.{◌≡◌};
ghost use Rattle.c104_workers.specs.Fabrics.{handed_of};

use crate::calls::PLAN;
use crate::fabrics::{fabric_of, ready_of};
use crate::ground::{Ground, Suite, is_right_on};
use crate::growths::{Growing, Refusal, is_right, takes_none};
use crate::nodes::{nodes_of, retire_all};
use crate::outcomes::Outcome;
use c104_event::{Event, EventFault, Port};
use c104_node::Node;
use c104_switch::Reply;
use c104_workers::{Fabric, Naming, Ready, Seat};
use std::alloc::Global;
use std::marker::Brand;

/// What is done on lent nodes.
#[derive(Clone, Copy)]
enum Lending {
    /// The terminal a sends a packet.
    Alone,
    /// The switch grants to a.
    Pair,
    /// Nothing came in at a, so that nothing arrives.
    NotReady,
}

/// Something is done on lent nodes. Where it is refused, the seat has no call of it and no node an entry, and the event is
/// done then. It fails where a ticket was drawn, or one node has acted, before there was memory for all; and where each
/// event is answered that it isn't ready.
#[derive(Drop)]
struct Doing<'a>(Ground<'a>, Lending);

impl Growing for Doing<'_> {
    fn call(&self, alloc: Global, refusal: Refusal) -> Outcome {
        let Some(net) = self.0.net(alloc) else {
            return Outcome::Wrong;
        };
        let mut nodes = nodes_of(net);
        let found = self.by_nodes(alloc, refusal, &mut nodes);
        retire_all(nodes);
        found
    }
}

impl Doing<'_> {
    /// On the switch and the terminal a.
    fn by_nodes(&self, alloc: Global, refusal: Refusal, nodes: &mut Vec<Node>) -> Outcome {
        match nodes.as_mut_slice() {
            [switch, terminal, ..] => match ready_of(alloc, self.0) {
                Some(ready) => self.by_seat::<Brand>(alloc, refusal, ready, switch, terminal),
                None => Outcome::Wrong,
            },
            _ => Outcome::Wrong,
        }
    }

    /// Through the first of the seats of a fabric.
    fn by_seat<N: Naming>(
        &self,
        alloc: Global,
        refusal: Refusal,
        ready: Ready,
        switch: &mut Node,
        terminal: &mut Node,
    ) -> Outcome
        requires { (ready.word_id ≡ N.word) × (handed_of ready.net ≡ N.handed) }
    {
        let Some((fabric, mut seats)) = fabric_of::<N>(alloc, ready) else {
            return Outcome::Wrong;
        };
        let found = match seats.as_mut_slice() {
            [seat, ..] => self.by(alloc, refusal, &fabric, seat, switch, terminal),
            [] => Outcome::Wrong,
        };
        fabric.close(seats).retire();
        found
    }

    /// Through a seat.
    fn by<N: Naming>(
        &self,
        alloc: Global,
        refusal: Refusal,
        fabric: &Fabric<N>,
        seat: &mut Seat,
        switch: &mut Node,
        terminal: &mut Node,
    ) -> Outcome
        requires { seat.old.0.word_id ≡ fabric.now.word_id }
        ensures { seat.new.0.word_id ≡ fabric.now.word_id }
    {
        let [sent, ..] = self.0.events else {
            return Outcome::Wrong;
        };
        match self.1 {
            Lending::Alone => alone(alloc, refusal, fabric, seat, terminal, sent),
            Lending::Pair => pair(alloc, refusal, fabric, seat, switch, terminal),
            Lending::NotReady => not_ready(alloc, refusal, fabric, seat, terminal),
        }
    }
}

fn alone<N: Naming>(
    alloc: Global,
    refusal: Refusal,
    fabric: &Fabric<N>,
    seat: &mut Seat,
    node: &mut Node,
    event: &Event,
) -> Outcome
    requires { seat.old.0.word_id ≡ fabric.now.word_id }
    ensures { seat.new.0.word_id ≡ fabric.now.word_id }
{
    refusal.begin(alloc);
    let answer = held(fabric, seat, event, node);
    refusal.end(alloc);
    match answer {
        Ok(Reply::Done) => Outcome::done_if(has_entry(node, seat)),
        Ok(_) => Outcome::Wrong,
        Err(fault) => {
            let is_same = node.trace().is_empty() && seat.calls().is_empty();
            let is_done_then = held(fabric, seat, event, node) == Ok(Reply::Done);
            let is_kept = is_same && is_done_then && has_entry(node, seat);
            Outcome::of_fault(&fault).if_kept(is_kept)
        }
    }
}

/// Whether a node has one entry, and the seat one call.
fn has_entry(node: &Node, seat: &Seat) -> bool {
    node.trace().len() == 1 && seat.calls().len() == 1
}

/// What an event is answered on one lent node. No such event is one of two nodes.
fn held<N: Naming>(
    fabric: &Fabric<N>,
    seat: &mut Seat,
    event: &Event,
    node: &mut Node,
) -> Result<Reply, EventFault>
    requires { seat.old.0.word_id ≡ fabric.now.word_id }
    ensures { seat.new.0.word_id ≡ fabric.now.word_id }
{
    match fabric.place(event) {
        Ok((_, None)) => fabric.apply_held(seat, event, node, None),
        _ => Err(EventFault::NoNode),
    }
}

fn pair<N: Naming>(
    alloc: Global,
    refusal: Refusal,
    fabric: &Fabric<N>,
    seat: &mut Seat,
    switch: &mut Node,
    terminal: &mut Node,
) -> Outcome
    requires { seat.old.0.word_id ≡ fabric.now.word_id }
    ensures { seat.new.0.word_id ≡ fabric.now.word_id }
{
    refusal.begin(alloc);
    let answer = granted(fabric, seat, switch, terminal);
    refusal.end(alloc);
    match answer {
        Ok(Reply::Done) => Outcome::done_if(has_entry(switch, seat) && has_entry(terminal, seat)),
        Ok(_) => Outcome::Wrong,
        Err(fault) => {
            let are_same = switch.trace().is_empty() && terminal.trace().is_empty();
            let is_same = are_same && seat.calls().is_empty();
            let is_done_then = granted(fabric, seat, switch, terminal) == Ok(Reply::Done);
            let are_kept = has_entry(switch, seat) && has_entry(terminal, seat);
            Outcome::of_fault(&fault).if_kept(is_same && is_done_then && are_kept)
        }
    }
}

/// What the switch is answered that grants to the terminal a.
fn granted<N: Naming>(
    fabric: &Fabric<N>,
    seat: &mut Seat,
    switch: &mut Node,
    terminal: &mut Node,
) -> Result<Reply, EventFault>
    requires { seat.old.0.word_id ≡ fabric.now.word_id }
    ensures { seat.new.0.word_id ≡ fabric.now.word_id }
{
    let event = Event::Credit(Port::Switch(0, 0));
    match fabric.place(&event) {
        Ok((_, Some(_))) => fabric.apply_held(seat, &event, switch, Some(terminal)),
        _ => Err(EventFault::NoNode),
    }
}

fn not_ready<N: Naming>(
    alloc: Global,
    refusal: Refusal,
    fabric: &Fabric<N>,
    seat: &mut Seat,
    node: &mut Node,
) -> Outcome
    requires { seat.old.0.word_id ≡ fabric.now.word_id }
    ensures { seat.new.0.word_id ≡ fabric.now.word_id }
{
    refusal.begin(alloc);
    let answer = held(fabric, seat, &Event::Drain { terminal: 0 }, node);
    refusal.end(alloc);
    let is_same = node.trace().is_empty() && seat.calls().is_empty();
    Outcome::done_if(is_same && answer == Ok(Reply::NotReady))
}

/// Events on lent nodes.
#[derive(Drop)]
struct HeldCalls;

impl Suite for HeldCalls {
    fn is_right(&self, rt: &HostRuntime, ground: Ground<'_>) -> bool {
        is_right(rt, "Fabric::apply_held", &Doing(ground, Lending::Alone))
            && is_right(
                rt,
                "Fabric::apply_held of a wire",
                &Doing(ground, Lending::Pair),
            )
            && takes_none(
                rt,
                "Fabric::place, Fabric::apply_held of what isn't ready",
                &Doing(ground, Lending::NotReady),
            )
    }
}

#[test]
fn lent_nodes(rt: HostRuntime) {
    assert!(rt; is_right_on(&rt, PLAN, &HeldCalls));
}
