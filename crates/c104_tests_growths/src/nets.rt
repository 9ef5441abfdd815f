//! Networks: each event of the first run, rounds, and what is made of networks and runs.
use crate::calls::{PLAN, command, do_all, drop_plan, drop_run, has_come, take_apart};
use crate::ground::{Ground, Suite, is_right_on};
use crate::growths::{Growing, Refusal, is_right};
use crate::outcomes::{Fault, Outcome};
use c104_event::{Event, EventFault};
use c104_net::{Lead, Net, Origins, Run, event_of, round_part, sort_leads};
use c104_plan::Plan;
use c104_run::Wires;
use c104_switch::Reply;
use std::alloc::Global;

/// How a network is made.
#[derive(Clone, Copy)]
enum Maker {
    /// It isn't started.
    New,
    /// It is placed with an image.
    Placed,
}

/// A network is made.
#[derive(Drop)]
struct Making<'a>(Ground<'a>, Maker);

impl Growing for Making<'_> {
    fn call(&self, alloc: Global, refusal: Refusal) -> Outcome {
        refusal.begin(alloc);
        let found = match self.1 {
            Maker::New => retired(Net::new(alloc, self.0.plan)),
            Maker::Placed => retired(Net::placed(alloc, self.0.plan, self.0.image)),
        };
        refusal.end(alloc);
        found
    }
}

/// What a network that was made came to, which is retired. Of one that isn't made no switch is left, since none can be
/// dropped.
fn retired<F: Fault + Drop>(made: Result<Net, F>) -> Outcome {
    match made {
        Ok(net) => {
            net.retire();
            Outcome::Done
        }
        Err(fault) => Outcome::of_fault(&fault),
    }
}

/// The wires of a plan are listed.
#[derive(Drop)]
struct Wiring<'a>(&'a Plan);

impl Growing for Wiring<'_> {
    fn call(&self, alloc: Global, refusal: Refusal) -> Outcome {
        let Ok(plan) = self.0.clone() else {
            return Outcome::Wrong;
        };
        refusal.begin(alloc);
        let made = Wires::new(alloc, plan);
        refusal.end(alloc);
        match made {
            Ok(wires) => {
                drop_plan(wires.into_plan());
                Outcome::Done
            }
            Err(fault) => Outcome::of_fault(&fault),
        }
    }
}

/// An event is done after others of the first run. Where it is refused the network is as it was: the event and the rest of
/// the run are done then. It fails where an event that is refused has taken its token, or has granted at one end of a wire
/// alone.
#[derive(Drop)]
struct Doing<'a>(Ground<'a>, usize);

impl Growing for Doing<'_> {
    fn call(&self, alloc: Global, refusal: Refusal) -> Outcome {
        let Some(mut net) = self.0.net_after(alloc, self.1) else {
            return Outcome::Wrong;
        };
        let found = self.call_on(alloc, refusal, &mut net);
        net.retire();
        found
    }
}

impl Doing<'_> {
    fn call_on(&self, alloc: Global, refusal: Refusal, net: &mut Net) -> Outcome {
        let rest = self.0.rest(self.1);
        let [event, ..] = rest else {
            return Outcome::Wrong;
        };
        refusal.begin(alloc);
        let answer = net.apply(event);
        refusal.end(alloc);
        match came_to(answer) {
            Outcome::NoMemory => {
                let is_kept = self.0.is_after(alloc, net, self.1) && does_rest(net, rest);
                Outcome::NoMemory.if_kept(is_kept)
            }
            found => found,
        }
    }
}

/// What an event came to that is to be done.
fn came_to(answer: Result<Reply, EventFault>) -> Outcome {
    match answer {
        Ok(Reply::NotReady) => Outcome::Wrong,
        Ok(_) => Outcome::Done,
        Err(fault) => Outcome::of_fault(&fault),
    }
}

/// Whether the rest of the first run brings its packet to b.
fn does_rest(net: &mut Net, rest: &[Event]) -> bool {
    do_all(net, rest);
    has_come(net)
}

/// A command is done.
#[derive(Drop)]
struct Commanding<'a>(Ground<'a>, &'a Event);

impl Growing for Commanding<'_> {
    fn call(&self, alloc: Global, refusal: Refusal) -> Outcome {
        let Some(mut net) = self.0.net(alloc) else {
            return Outcome::Wrong;
        };
        refusal.begin(alloc);
        let answer = net.apply(self.1);
        refusal.end(alloc);
        let is_kept = self.0.is_after(alloc, &net, 0);
        net.retire();
        came_to(answer).if_kept(is_kept)
    }
}

/// All events of the first run are done at once. Out of memory for the answers none is; where an event is refused for it,
/// its answer tells that.
#[derive(Drop)]
struct DoingAll<'a>(Ground<'a>);

impl Growing for DoingAll<'_> {
    fn call(&self, alloc: Global, refusal: Refusal) -> Outcome {
        let Some(mut net) = self.0.net(alloc) else {
            return Outcome::Wrong;
        };
        refusal.begin(alloc);
        let result = net.apply_all(alloc, self.0.events);
        refusal.end(alloc);
        let found = match result {
            Ok(answers) => came_to_all(answers.as_slice(), has_come(&net)),
            Err(fault) => Outcome::of_fault(&fault).if_kept(self.0.is_after(alloc, &net, 0)),
        };
        net.retire();
        found
    }
}

/// What events came to that bring a packet to b where each is done.
fn came_to_all(answers: &[Result<Reply, EventFault>], has_come: bool) -> Outcome {
    for answer in answers {
        if *answer == Err(EventFault::NoMemory) {
            return Outcome::NoMemory;
        }
    }
    Outcome::done_if(has_come)
}

/// Rounds bring the packet of the first run to b. The events that were done before a refusal stand, so further rounds
/// bring it there too.
#[derive(Drop)]
struct DoingRounds<'a>(Ground<'a>);

impl Growing for DoingRounds<'_> {
    fn call(&self, alloc: Global, refusal: Refusal) -> Outcome {
        let Some(mut net) = self.0.net_after(alloc, 1) else {
            return Outcome::Wrong;
        };
        refusal.begin(alloc);
        let result = net.rounds(12);
        refusal.end(alloc);
        let has_all = net.rounds(12).is_ok() && has_come(&net);
        net.retire();
        if has_all {
            Outcome::of(result)
        } else {
            Outcome::Wrong
        }
    }
}

/// What a round has for a node.
#[derive(Drop)]
struct Parting<'a>(&'a Plan);

impl Growing for Parting<'_> {
    fn call(&self, alloc: Global, refusal: Refusal) -> Outcome {
        let Some(wires) = wires_of(alloc, self.0) else {
            return Outcome::Wrong;
        };
        refusal.begin(alloc);
        let result = round_part(alloc, &wires, 0);
        refusal.end(alloc);
        drop_plan(wires.into_plan());
        Outcome::of(result)
    }
}

/// The wires of a plan. None if out of memory.
fn wires_of(alloc: Global, plan: &Plan) -> Option<Wires> {
    let plan = plan.clone().ok()?;
    Wires::new(alloc, plan).ok()
}

/// The run of the nodes of a network that is taken apart.
#[derive(Drop)]
struct Telling<'a>(Ground<'a>);

impl Growing for Telling<'_> {
    fn call(&self, alloc: Global, refusal: Refusal) -> Outcome {
        let Some(net) = self.0.net_after(alloc, usize::MAX) else {
            return Outcome::Wrong;
        };
        let parts = take_apart(net);
        refusal.begin(alloc);
        let result = Run::of_nodes(alloc, parts.plan(), parts.nodes(), parts.count());
        refusal.end(alloc);
        parts.retire();
        match result {
            Ok(run) => {
                drop_run(run);
                Outcome::Done
            }
            Err(fault) => Outcome::of_fault(&fault),
        }
    }
}

/// What is found of a run.
#[derive(Clone, Copy)]
enum Finding {
    /// The origins of its packets.
    Origins,
    /// The event that the first entry of the terminal a leads in: it sends a packet.
    Event,
}

/// Something is found of a run.
#[derive(Drop)]
struct Asking<'a>(&'a Run, Finding);

impl Growing for Asking<'_> {
    fn call(&self, alloc: Global, refusal: Refusal) -> Outcome {
        let lead = Lead {
            ticket: 0,
            place: 1,
            at: 0,
        };
        refusal.begin(alloc);
        let found = match self.1 {
            Finding::Origins => Outcome::of(self.0.origins(alloc)),
            Finding::Event => Outcome::of(event_of(1, self.0.traces(), &lead)),
        };
        refusal.end(alloc);
        found
    }
}

/// Entries that lead are sorted.
#[derive(Drop)]
struct Sorting;

impl Growing for Sorting {
    fn call(&self, alloc: Global, refusal: Refusal) -> Outcome {
        let Some(mut leads) = mixed_leads(alloc) else {
            return Outcome::Wrong;
        };
        refusal.begin(alloc);
        let result = sort_leads(&mut leads);
        refusal.end(alloc);
        Outcome::of(result).if_kept(leads.len() == LEADS)
    }
}

/// More than are sorted in place.
const LEADS: usize = 64;

/// Entries of two tickets in turn: what stands in order, or in reverse, is sorted without memory.
fn mixed_leads(alloc: Global) -> Option<Vec<Lead>> {
    let mut leads = Vec::new(alloc);
    for number in 0..LEADS {
        leads
            .push(Lead {
                ticket: (number % 2) as u64,
                place: 0,
                at: 0,
            })
            .ok()?;
    }
    Some(leads)
}

/// What is asked of the first run's network.
#[derive(Drop)]
struct NetCalls;

impl Suite for NetCalls {
    fn is_right(&self, rt: &HostRuntime, ground: Ground<'_>) -> bool {
        is_right(rt, "Net::new", &Making(ground, Maker::New))
            && is_right(rt, "Net::placed", &Making(ground, Maker::Placed))
            && is_right(rt, "Wires::new", &Wiring(ground.plan))
            && is_right(rt, "Net::apply_all", &DoingAll(ground))
            && is_right(rt, "Net::rounds", &DoingRounds(ground))
            && is_right(rt, "round_part", &Parting(ground.plan))
            && is_right(rt, "Run::of_nodes", &Telling(ground))
            && is_command_right(rt, ground)
    }
}

/// A command that is done by a network.
fn is_command_right(rt: &HostRuntime, ground: Ground<'_>) -> bool {
    match command(&[0x05, 0x02, 0x01, 0x05, 0x00, 0x00, 0x00]) {
        Some(event) => is_right(rt, "Net::apply of a command", &Commanding(ground, &event)),
        None => false,
    }
}

/// Each event of the first run.
#[derive(Drop)]
struct EachEvent;

impl Suite for EachEvent {
    fn is_right(&self, rt: &HostRuntime, ground: Ground<'_>) -> bool {
        for number in 0..ground.events.len() {
            if !is_right(rt, "Net::apply", &Doing(ground, number)) {
                return false;
            }
        }
        true
    }
}

/// What is found of the first run.
#[derive(Drop)]
struct RunCalls;

impl Suite for RunCalls {
    fn is_right(&self, rt: &HostRuntime, ground: Ground<'_>) -> bool {
        let Some(net) = ground.net_after(rt.alloc(), usize::MAX) else {
            return false;
        };
        let run = net.finish();
        let is_right = is_right(rt, "Origins::origins", &Asking(&run, Finding::Origins))
            && is_right(rt, "event_of", &Asking(&run, Finding::Event));
        drop_run(run);
        is_right
    }
}

#[test]
fn networks(rt: HostRuntime) {
    assert!(rt; is_right_on(&rt, PLAN, &NetCalls));
    assert!(rt; is_right_on(&rt, PLAN, &EachEvent));
}

#[test]
fn runs(rt: HostRuntime) {
    assert!(rt; is_right_on(&rt, PLAN, &RunCalls));
    assert!(rt; is_right(&rt, "sort_leads", &Sorting));
}
