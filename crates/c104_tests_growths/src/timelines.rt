//! What crosses wires, round by round.
use crate::calls::PLAN;
use crate::ground::{Ground, Suite, is_right_on};
use crate::growths::{Growing, Refusal, is_right};
use crate::outcomes::Outcome;
use crate::traced::net_after;
use c104_net::{Origin, TracedNet};
use c104_plan::Port;
use c104_rows::{Timeline, bars_at, shown_ports};
use std::alloc::Global;

/// What is asked of a timeline.
#[derive(Clone, Copy)]
enum Call {
    New,
    Settle,
    Cut,
    Begin,
    Close,
    Ports,
    Bars,
}

/// The last round that is shown.
const LAST: u32 = 9;

impl Call {
    fn of(self, alloc: Global, net: &TracedNet, timeline: &mut Timeline) -> Outcome {
        match self {
            Call::New => Outcome::of(Timeline::new(alloc, net.plan(), true)),
            Call::Settle => Outcome::of(timeline.settle(Port::Terminal(0))),
            Call::Cut => Outcome::of(timeline.cut(0)),
            Call::Begin => Outcome::of(timeline.begin_round()),
            Call::Close => Outcome::of(timeline.close_all(net)),
            Call::Ports => Outcome::of(shown_ports(alloc, net.plan(), timeline, LAST)),
            Call::Bars => Outcome::of(bars_at(alloc, timeline, LAST, Port::Terminal(0))),
        }
    }
}

/// Something is asked of the timeline of a network over whose first terminal's wire the end of a packet has crossed, and over
/// that out of a link the header of another.
#[derive(Drop)]
struct Timing<'a> {
    net: &'a TracedNet,
    call: Call,
}

impl Timing<'_> {
    fn timeline(&self, alloc: Global) -> Option<Timeline> {
        let mut timeline = Timeline::new(alloc, self.net.plan(), true).ok()?;
        timeline.cross(
            Port::Terminal(0),
            Some(Origin {
                terminal: 0,
                number: 0,
            }),
        );
        timeline.cross(Port::Switch(0, 1), None);
        if !matches!(
            self.call,
            Call::Settle | Call::Cut | Call::Begin | Call::Close
        ) {
            timeline.close_all(self.net).ok()?;
        }
        Some(timeline)
    }
}

impl Growing for Timing<'_> {
    fn call(&self, alloc: Global, refusal: Refusal) -> Outcome {
        let Some(mut timeline) = self.timeline(alloc) else {
            return Outcome::Wrong;
        };
        refusal.begin(alloc);
        let found = self.call.of(alloc, self.net, &mut timeline);
        refusal.end(alloc);
        found
    }
}

/// The first run's network, while its packet is under way.
#[derive(Drop)]
struct TimelineCalls;

impl Suite for TimelineCalls {
    fn is_right(&self, rt: &HostRuntime, ground: Ground<'_>) -> bool {
        let Some(net) = net_after(rt.alloc(), ground, 4) else {
            return false;
        };
        let mut is_right_so_far = true;
        for (name, call) in [
            ("Timeline::new", Call::New),
            ("Timeline::settle", Call::Settle),
            ("Timeline::cut", Call::Cut),
            ("Timeline::begin_round", Call::Begin),
            ("Timeline::close_all", Call::Close),
            ("shown_ports", Call::Ports),
            ("bars_at", Call::Bars),
        ] {
            let timing = Timing { net: &net, call };
            is_right_so_far = is_right_so_far && is_right(rt, name, &timing);
        }
        net.retire();
        is_right_so_far
    }
}

#[test]
fn timelines(rt: HostRuntime) {
    assert!(rt; is_right_on(&rt, PLAN, &TimelineCalls));
}
