//! What blocks packets in a network that stands still and has a cycle of channel dependencies: what the theorem says of it,
//! cited as a caller does.
//!
//! Each group of a ring has a way out, to a switch that is joined to all others. Six short packets lock it up all the same:
//! three of them are given the link round the ring as soon as the packet before them has left their switch, and wait behind
//! that one.
ghost use Rattle.std.specs.Prelude.{IfOk, true, ◌≡◌};
ghost use Rattle.c104_check.specs.{ChannelDependencies.IsNeverRandomized, Routes.{IsAccepted, routes_of}};
ghost use Rattle.{c104_deadlock.specs.BlockedInputs.IsBlocked, c104_plan.specs.PlanImage.{Fits, Image as TheImage}};
ghost use Rattle.{c104_plan.specs.Plans.Plan as ThePlan, c104_tests_net.specs.CalmNets.IsCalm};

use crate::calls::{drop_plan, plan_of};
use crate::named_packets::{is_plain, placed, rounds, send_plain};
use c104_check::check;
use c104_deadlock::NoDeadlock;
use c104_label::image_of;
use c104_net::Net;
use c104_plan::{Image, Plan};
use c104_token::parse_packet;
use std::alloc::Global;
use std::test::Fail;

/// Three switches in a ring with two terminals each, and one that is joined to all of them. Packets for another switch go by
/// link 2, round the ring, or by link 3.
const RING: &[u8] = b"buffer 8\nswitch S0\nswitch S1\nswitch S2\nswitch H\nterminal t0 S0.0\n\
    terminal t1 S0.1\nterminal t2 S1.0\nterminal t3 S1.1\nterminal t4 S2.0\n\
    terminal t5 S2.1\nwire S0.2 S1.4\nwire S1.2 S2.4\nwire S2.2 S0.4\nwire S0.3 H.0\n\
    wire S1.3 H.1\nwire S2.3 H.2\ncontinue S0.3\ncontinue S1.3\ncontinue S2.3\n\
    row S0.0 1 0\nrow S0.0 2 1\nrow S0.0 6 2\nrow S0.1 1 0\nrow S0.1 2 1\nrow S0.1 6 2\n\
    row S0.4 1 0\nrow S0.4 2 1\nrow S0.4 6 2\nrow S0.3 1 0\nrow S0.3 2 1\nrow H.0 2 0\n\
    row H.0 4 1\nrow H.0 6 2\nrow S1.0 2 2\nrow S1.0 3 0\nrow S1.0 4 1\nrow S1.0 6 2\n\
    row S1.1 2 2\nrow S1.1 3 0\nrow S1.1 4 1\nrow S1.1 6 2\nrow S1.4 2 2\nrow S1.4 3 0\n\
    row S1.4 4 1\nrow S1.4 6 2\nbase S1.3 2\nrow S1.3 3 0\nrow S1.3 4 1\nrow H.1 2 0\n\
    row H.1 4 1\nrow H.1 6 2\nrow S2.0 4 2\nrow S2.0 5 0\nrow S2.0 6 1\nrow S2.1 4 2\n\
    row S2.1 5 0\nrow S2.1 6 1\nrow S2.4 4 2\nrow S2.4 5 0\nrow S2.4 6 1\nbase S2.3 4\n\
    row S2.3 5 0\nrow S2.3 6 1\nrow H.2 2 0\nrow H.2 4 1\nrow H.2 6 2\n";

/// The ring is stuck, and its packets are blocked where the theorem says.
#[test]
fn of_a_ring_with_ways_out(rt: HostRuntime) -> Result<(), Fail> {
    let plan = plan_of(rt.alloc(), RING)?;
    let stuck = on_ring(rt.alloc(), &plan, 100);
    drop_plan(plan);
    assert!(rt; stuck?);
    Ok(())
}

// The count of rounds comes as an argument, since the prover would compute with a literal.

/// Six packets are sent; and whether the ring is stuck after `count` rounds.
fn on_ring(alloc: Global, plan: &Plan, count: u32) -> Result<bool, Fail> {
    if !is_plain(plan) {
        return Err("random headers".into());
    }
    let image = image_of(alloc, plan)?;
    let stuck = where_accepted(alloc, plan, &image, count)?;
    Ok(stuck)
}

/// The same with the plan's own image, where it is accepted.
fn where_accepted(alloc: Global, plan: &Plan, image: &Image, count: u32) -> Result<bool, Fail>
    requires fits { Fits image.now plan.now }
    requires never_randomized { IsNeverRandomized (routes_of plan.now image.now) }
{
    check(alloc, plan, image)?;
    let mut net = placed(alloc, plan, image)?;
    let stuck = lock_up(alloc, &mut net, plan, image, count);
    net.retire();
    stuck
}

/// Packets are sent; and whether the network is stuck after `count` rounds.
fn lock_up(
    alloc: Global,
    net: &mut Net,
    plan: &Plan,
    image: &Image,
    count: u32,
) -> Result<bool, Fail>
    requires accepted { IsAccepted (routes_of plan.now image.now) }
    requires never_randomized { IsNeverRandomized (routes_of plan.now image.now) }
    requires calm { IsCalm plan.now image.now net.old }
    ensures { IfOk result (λ stuck. stuck ≡ true → IsBlocked (routes_of plan.now image.now) net.new.network) }
{
    send_to_next_but_one(alloc, net)?;
    send_to_next(alloc, net)?;
    rounds(net, count)?;
    is_stuck(net, plan, image)
}

/// Whether a network is stuck; and what blocks its packets then.
fn is_stuck(net: &Net, plan: &Plan, image: &Image) -> Result<bool, Fail>
    requires accepted { IsAccepted (routes_of plan.now image.now) }
    requires calm { IsCalm plan.now image.now net.now }
    ensures { IfOk result (λ stuck. stuck ≡ true → IsBlocked (routes_of plan.now image.now) net.now.network) }
{
    if !net.began_started() {
        return Err("a switch isn't started".into());
    }
    if !net.stands_still() {
        return Err("it doesn't stand still".into());
    }
    net.has_no_deadlock();
    Ok(!net.quiet())
}

/// The first terminal of each switch sends to the next switch but one: these packets take the ring's links.
fn send_to_next_but_one(alloc: Global, net: &mut Net) -> Result<(), Fail>
    ensures { (plan : ThePlan) → (image : TheImage) → IsNeverRandomized (routes_of plan image) →
        IsCalm plan image net.old → IsCalm plan image net.new }
{
    send_text(alloc, net, 0, "04 00 00 00 00 00 00 00 eop")?;
    send_text(alloc, net, 2, "00 00 00 00 00 00 00 00 eop")?;
    send_text(alloc, net, 4, "02 00 00 00 00 00 00 00 eop")?;
    Ok(())
}

/// The second one to the next: these take the others, at the same time.
fn send_to_next(alloc: Global, net: &mut Net) -> Result<(), Fail>
    ensures { (plan : ThePlan) → (image : TheImage) → IsNeverRandomized (routes_of plan image) →
        IsCalm plan image net.old → IsCalm plan image net.new }
{
    send_text(alloc, net, 1, "03 00 00 00 00 00 00 00 eop")?;
    send_text(alloc, net, 3, "05 00 00 00 00 00 00 00 eop")?;
    send_text(alloc, net, 5, "01 00 00 00 00 00 00 00 eop")?;
    Ok(())
}

/// A terminal sends a packet.
fn send_text(alloc: Global, net: &mut Net, terminal: usize, text: &str) -> Result<(), Fail>
    ensures { (plan : ThePlan) → (image : TheImage) → IsNeverRandomized (routes_of plan image) →
        IsCalm plan image net.old → IsCalm plan image net.new }
{
    let packet = parse_packet(alloc, text)?;
    send_plain(net, terminal, packet)?;
    Ok(())
}
