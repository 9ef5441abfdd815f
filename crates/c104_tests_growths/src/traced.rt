//! The network of tagged tokens, on which scripts run.
use crate::calls::{PLAN, do_all};
use crate::ground::{Ground, Suite, is_right_on};
use crate::growths::{Growing, Refusal, is_right};
use crate::outcomes::Outcome;
use c104_event::{Event, EventFault};
use c104_net::{Origins, TracedNet, Unwatched, Words};
use c104_plan::Plan;
use c104_switch::Reply;
use c104_token::Token;
use c104_tools::load;
use std::alloc::Global;

/// A network is made.
#[derive(Drop)]
struct Making<'a>(&'a Plan);

impl Growing for Making<'_> {
    fn call(&self, alloc: Global, refusal: Refusal) -> Outcome {
        refusal.begin(alloc);
        let made = TracedNet::new(alloc, self.0);
        refusal.end(alloc);
        match made {
            Ok(net) => {
                net.retire();
                Outcome::Done
            }
            Err(fault) => Outcome::of_fault(&fault),
        }
    }
}

/// The network of a ground after this many events of the first run.
pub fn net_after(alloc: Global, ground: Ground<'_>, count: usize) -> Option<TracedNet> {
    let mut net = TracedNet::new(alloc, ground.plan).ok()?;
    if load(&mut net, ground.image).is_err() {
        net.retire();
        return None;
    }
    do_all(&mut net, ground.front(count));
    Some(net)
}

/// Whether the packet of the first run has come to the terminal b.
fn has_come(alloc: Global, net: &TracedNet) -> bool {
    match net.arrived(alloc, 1) {
        Ok(Some(tokens)) => {
            tokens.as_slice() == [Token::Byte(1), Token::Byte(0xaa), Token::Eop].as_slice()
        }
        _ => false,
    }
}

/// An event is done after others of the first run. Where it is refused, it and the rest of the run are done then.
#[derive(Drop)]
struct Doing<'a>(Ground<'a>, usize);

impl Growing for Doing<'_> {
    fn call(&self, alloc: Global, refusal: Refusal) -> Outcome {
        let Some(mut net) = net_after(alloc, self.0, self.1) else {
            return Outcome::Wrong;
        };
        let found = applied(alloc, refusal, &mut net, self.0.rest(self.1));
        net.retire();
        found
    }
}

fn applied(alloc: Global, refusal: Refusal, net: &mut TracedNet, rest: &[Event]) -> Outcome {
    let [event, ..] = rest else {
        return Outcome::Wrong;
    };
    refusal.begin(alloc);
    let answer = net.apply(event);
    refusal.end(alloc);
    match answer {
        Ok(Reply::NotReady) => Outcome::Wrong,
        Ok(_) => Outcome::Done,
        Err(fault) => {
            do_all(net, rest);
            Outcome::of_fault(&fault).if_kept(has_come(alloc, net))
        }
    }
}

/// Rounds bring the packet of the first run to b. The events that were done before a refusal stand, so further rounds
/// bring it there too.
#[derive(Drop)]
struct DoingRounds<'a>(Ground<'a>);

impl Growing for DoingRounds<'_> {
    fn call(&self, alloc: Global, refusal: Refusal) -> Outcome {
        let Some(mut net) = net_after(alloc, self.0, 1) else {
            return Outcome::Wrong;
        };
        refusal.begin(alloc);
        let result = rounds(&mut net);
        refusal.end(alloc);
        let has_all = rounds(&mut net).is_ok() && has_come(alloc, &net);
        net.retire();
        if has_all {
            Outcome::of(result)
        } else {
            Outcome::Wrong
        }
    }
}

fn rounds(net: &mut TracedNet) -> Result<(), EventFault> {
    net.rounds_watched(12, Words::Zero, &mut Unwatched)
}

/// What is asked of a network.
#[derive(Clone, Copy)]
enum Question {
    /// What arrived at b.
    Arrived,
    /// Where that came from.
    Origins,
}

/// Something is asked of a network.
#[derive(Drop)]
struct Asking<'a>(&'a TracedNet, Question);

impl Growing for Asking<'_> {
    fn call(&self, alloc: Global, refusal: Refusal) -> Outcome {
        refusal.begin(alloc);
        let found = match self.1 {
            Question::Arrived => Outcome::of(self.0.arrived(alloc, 1)),
            Question::Origins => Outcome::of(self.0.origins(alloc)),
        };
        refusal.end(alloc);
        found
    }
}

/// What is asked of the first run's network.
#[derive(Drop)]
struct TracedCalls;

impl Suite for TracedCalls {
    fn is_right(&self, rt: &HostRuntime, ground: Ground<'_>) -> bool {
        is_right(rt, "TracedNet::new", &Making(ground.plan))
            && is_right(rt, "TracedNet::rounds_watched", &DoingRounds(ground))
            && is_answered(rt, ground)
    }
}

fn is_answered(rt: &HostRuntime, ground: Ground<'_>) -> bool {
    let Some(net) = net_after(rt.alloc(), ground, usize::MAX) else {
        return false;
    };
    let is_right = is_right(rt, "TracedNet::arrived", &Asking(&net, Question::Arrived))
        && is_right(rt, "Origins::origins", &Asking(&net, Question::Origins));
    net.retire();
    is_right
}

/// Each event of the first run.
#[derive(Drop)]
struct EachEvent;

impl Suite for EachEvent {
    fn is_right(&self, rt: &HostRuntime, ground: Ground<'_>) -> bool {
        for number in 0..ground.events.len() {
            if !is_right(rt, "TracedNet::apply", &Doing(ground, number)) {
                return false;
            }
        }
        true
    }
}

#[test]
fn traced_networks(rt: HostRuntime) {
    assert!(rt; is_right_on(&rt, PLAN, &TracedCalls));
    assert!(rt; is_right_on(&rt, PLAN, &EachEvent));
}
