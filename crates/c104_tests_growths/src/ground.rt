//! The ground of most tests: a plan with its image, and the first run on its network.
use crate::calls::{are_alike, do_all, drop_plan, first_run, label_image, net_of, plan_of};
use crate::growths::{Sharing, count_shared_growths};
use c104_event::Event;
use c104_net::Net;
use c104_plan::{Image, Plan};
use std::alloc::Global;
use std::sync::Wait;
use std::thread::Threads;

/// A plan with its image, and the events of the first run.
#[derive(Clone, Copy)]
pub struct Ground<'a> {
    pub plan: &'a Plan,
    pub image: &'a Image,
    pub events: &'a [Event],
}

impl Ground<'_> {
    /// The network of the plan with the image's settings, of which nothing is done.
    pub fn net(&self, alloc: Global) -> Option<Net> {
        net_of(alloc, self.plan, self.image)
    }

    /// The network after this many events of the first run, or after all.
    pub fn net_after(&self, alloc: Global, count: usize) -> Option<Net> {
        let mut net = self.net(alloc)?;
        do_all(&mut net, self.front(count));
        Some(net)
    }

    /// Whether a network is as it is after this many events.
    pub fn is_after(&self, alloc: Global, net: &Net, count: usize) -> bool {
        let Some(twin) = self.net_after(alloc, count) else {
            return false;
        };
        let are_alike = are_alike(net, &twin);
        twin.retire();
        are_alike
    }

    /// The first events, this many of them or all.
    pub fn front(&self, count: usize) -> &[Event] {
        let (front, _) = self.events.split_at(count.min(self.events.len()));
        front
    }

    /// Those behind them.
    pub fn rest(&self, count: usize) -> &[Event] {
        let (_, rest) = self.events.split_at(count.min(self.events.len()));
        rest
    }
}

/// Tests of calls on a ground.
pub trait Suite {
    /// Whether each is right.
    fn is_right(&self, rt: &HostRuntime, ground: Ground<'_>) -> bool;
}

/// Whether tests are right on the ground of a description.
pub fn is_right_on<S: Suite>(rt: &HostRuntime, text: &[u8], suite: &S) -> bool {
    let Some(plan) = plan_of(rt.alloc(), text) else {
        return false;
    };
    let is_right = is_right_of(rt, &plan, suite);
    drop_plan(plan);
    is_right
}

fn is_right_of<S: Suite>(rt: &HostRuntime, plan: &Plan, suite: &S) -> bool {
    let Some(image) = label_image(rt.alloc(), plan) else {
        return false;
    };
    let Some(events) = first_run(rt.alloc()) else {
        return false;
    };
    let ground = Ground {
        plan,
        image: &image,
        events: events.as_slice(),
    };
    suite.is_right(rt, ground)
}

/// How many growths a call has on the ground of a description, to which a handle is lent. None where it comes out wrong.
pub fn growths_on<R: Threads + Wait + Sync, C: Sharing>(
    rt: &R,
    alloc: Global,
    text: &[u8],
    call: &C,
) -> Option<usize> {
    let plan = plan_of(alloc, text)?;
    let growths = growths_of(rt, alloc, &plan, call);
    drop_plan(plan);
    growths
}

fn growths_of<R: Threads + Wait + Sync, C: Sharing>(
    rt: &R,
    alloc: Global,
    plan: &Plan,
    call: &C,
) -> Option<usize> {
    let image = label_image(alloc, plan)?;
    let events = first_run(alloc)?;
    let ground = Ground {
        plan,
        image: &image,
        events: events.as_slice(),
    };
    count_shared_growths(rt, alloc, ground, call)
}
