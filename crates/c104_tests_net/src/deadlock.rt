//! The theorem that a network without a cycle of channel dependencies has no deadlock, cited as a caller does.
//!
//! Of a labelled mesh nothing is checked and no cycle is sought; of a ring whose labels were made by hand `find_cycle`
//! tells that there is none, and gives ranks; there the inputs of rounds are handed words of a seed. In both the number of
//! rounds that are enough is known before them, and that all is quiet afterwards is proved from the contracts of `Net`
//! alone. Where random headers are put before packets no call tells that number; but where the network stands still, it
//! is proved to be quiet.
ghost use Rattle.std.specs.Prelude.{IfOk, true, ◌<◌, ◌≡◌};
ghost use Rattle.c104_check.specs.ChannelDependencies.{AreRanksWithin, IsAcyclic, IsNeverRandomized, IsRanking, input_count};
ghost use Rattle.{c104_check.specs.{Ranks.rank_in, Routes.{IsAccepted, routes_of}}, c104_deadlock.specs.DeadlockFreedom.IsAllDelivered};
ghost use Rattle.{c104_deadlock.specs.{HeaderWork.{work, work_bound}, Work.told_work}, c104_plan.specs.PlanImage.{Fits, Image as TheImage}};
ghost use Rattle.{c104_plan.specs.Plans.Plan as ThePlan, c104_tests_net.specs.{CalmNets.IsCalm, DeliveredNets.DeliversByRanks}};
ghost use Rattle.c104_tests_net.specs.DeliveredNets.{DeliversWithin};

use crate::calls::{drop_plan, plan_of};
use crate::named_packets::{is_plain, placed, send_plain};
use crate::portals::{PORTALS, send_labels};
use c104_check::{Ranks, RanksOrCycle, check, find_cycle};
use c104_deadlock::{LeftWork, NoDeadlock};
use c104_event::EventFault;
use c104_label::{image_of, label_mesh};
use c104_net::{Net, Unwatched, Words};
use c104_plan::{Image, Plan};
use c104_token::parse_packet;
use std::alloc::Global;
use std::test::Fail;

/// A mesh of two columns and two rows, with a terminal at each switch.
pub const MESH: &[u8] = b"mesh 2 2 1\n";

/// Four switches in a ring. Packets to the opposite switch go by B and C, those from A to D and back by their own wire.
const RING: &[u8] = b"switch A\nswitch B\nswitch C\nswitch D\n\
    terminal a A.0\nterminal b B.0\nterminal c C.0\nterminal d D.0\n\
    wire A.1 B.2\nwire B.1 C.2\nwire C.1 D.2\nwire D.1 A.2\n\
    row A.0 1 0\nrow A.0 3 1\nrow A.0 4 2\nrow A.1 1 0\nrow A.1 4 sink\nrow A.2 1 0\nrow A.2 4 sink\n\
    row B.0 1 2\nrow B.0 2 0\nrow B.0 4 1\nrow B.1 1 2\nrow B.1 2 0\nrow B.1 4 sink\n\
    row B.2 1 sink\nrow B.2 2 0\nrow B.2 4 1\n\
    row C.0 2 2\nrow C.0 3 0\nrow C.0 4 1\nrow C.1 1 sink\nrow C.1 2 2\nrow C.1 3 0\nrow C.1 4 sink\n\
    row C.2 2 sink\nrow C.2 3 0\nrow C.2 4 1\n\
    row D.0 1 1\nrow D.0 3 2\nrow D.0 4 0\nrow D.1 3 sink\nrow D.1 4 0\nrow D.2 3 sink\nrow D.2 4 0\n";

/// Of a labelled mesh nothing has to be checked.
#[test]
fn of_a_mesh(rt: HostRuntime) -> Result<(), Fail> {
    let plan = plan_of(rt.alloc(), MESH)?;
    let quiet = on_mesh(rt.alloc(), &plan, 1_000_000);
    drop_plan(plan);
    assert!(rt; quiet?);
    Ok(())
}

/// The ring's labels are checked, and a cycle is sought.
#[test]
fn of_a_ring(rt: HostRuntime) -> Result<(), Fail> {
    let plan = plan_of(rt.alloc(), RING)?;
    let quiet = on_ring(rt.alloc(), &plan, 1_000_000);
    drop_plan(plan);
    assert!(rt; quiet?);
    Ok(())
}

/// The ways by random headers count too, and those from the portals on.
#[test]
fn of_two_portals(rt: HostRuntime) -> Result<(), Fail> {
    let plan = plan_of(rt.alloc(), PORTALS)?;
    let quiet = over_portals(rt.alloc(), &plan, 40);
    drop_plan(plan);
    assert!(rt; quiet?);
    Ok(())
}

// The count of rounds comes as an argument, since the prover would compute with a literal.

/// Two packets are sent over a labelled mesh, and all is quiet after `count` rounds.
fn on_mesh(alloc: Global, plan: &Plan, count: u32) -> Result<bool, Fail>
    ensures { IfOk result (λ quiet. quiet ≡ true) }
{
    let image = label_mesh(alloc, plan)?;
    let quiet = within_bound(alloc, plan, &image, count)?;
    Ok(quiet)
}

/// The same over labels whose ranks nobody has.
fn within_bound(alloc: Global, plan: &Plan, image: &Image, count: u32) -> Result<bool, Fail>
    requires fits { Fits image.now plan.now }
    requires accepted { IsAccepted (routes_of plan.now image.now) }
    requires acyclic { IsAcyclic (routes_of plan.now image.now) }
    requires never_randomized { IsNeverRandomized (routes_of plan.now image.now) }
    ensures { IfOk result (λ quiet. quiet ≡ true) }
{
    let mut net = placed(alloc, plan, image)?;
    let quiet = settle_within(alloc, &mut net, plan, image, count);
    net.retire();
    quiet
}

/// Two packets are sent, and delivered.
fn settle_within(
    alloc: Global,
    net: &mut Net,
    plan: &Plan,
    image: &Image,
    count: u32,
) -> Result<bool, Fail>
    requires fits { Fits image.now plan.now }
    requires accepted { IsAccepted (routes_of plan.now image.now) }
    requires acyclic { IsAcyclic (routes_of plan.now image.now) }
    requires never_randomized { IsNeverRandomized (routes_of plan.now image.now) }
    requires calm { IsCalm plan.now image.now net.old }
    ensures { IfOk result (λ quiet. quiet ≡ true) }
{
    send_two(alloc, net)?;
    deliver_within(net, plan, image, count)?;
    Ok(net.quiet())
}

/// All that was sent is delivered, by the bound of work.
fn deliver_within(net: &mut Net, plan: &Plan, image: &Image, count: u32) -> Result<(), Fail>
    requires fits { Fits image.now plan.now }
    requires accepted { IsAccepted (routes_of plan.now image.now) }
    requires acyclic { IsAcyclic (routes_of plan.now image.now) }
    requires never_randomized { IsNeverRandomized (routes_of plan.now image.now) }
    requires calm { IsCalm plan.now image.now net.old }
    ensures { IfOk result (λ _. IsAllDelivered (routes_of plan.now image.now) net.new) }
{
    if !net.began_started() {
        return Err("a switch isn't started".into());
    }
    if !is_within_bound(net, count) {
        return Err("more rounds are needed".into());
    }
    rounds_within(net, count)?;
    Ok(())
}

/// Whether `count` rounds are more than the bound of work.
fn is_within_bound(net: &Net, count: u32) -> bool
    ensures { result ≡ true → told_work (work_bound net.now.network.plan net.now.network.nodes) < count }
{
    net.work_bound() < u64::from(count)
}

/// Whether `count` rounds are more than the work that is left.
fn is_within_work(net: &Net, ranks: &Ranks, count: u32) -> bool
    ensures { result ≡ true → told_work
        (work net.now.network.plan (rank_in ranks.now.by_place) net.now.network.nodes) < count }
{
    net.work(ranks) < u64::from(count)
}

/// Rounds, of which the theorem says what they come to.
fn rounds_within(net: &mut Net, count: u32) -> Result<(), EventFault>
    ensures { DeliversWithin net.old count result net.new }
{
    net.has_no_deadlock();
    net.rounds(count)
}

/// The same of rounds whose inputs are handed words of a seed.
fn seeded_rounds(net: &mut Net, count: u32) -> Result<(), EventFault>
    ensures { DeliversByRanks net.old count result net.new }
{
    net.has_no_deadlock();
    net.rounds_watched(count, Words::Seeded(7), &mut Unwatched)
}

/// Two packets are sent over the ring, and all is quiet after `count` rounds.
fn on_ring(alloc: Global, plan: &Plan, count: u32) -> Result<bool, Fail>
    ensures { IfOk result (λ quiet. quiet ≡ true) }
{
    if !is_plain(plan) {
        return Err("random headers".into());
    }
    let image = image_of(alloc, plan)?;
    let quiet = where_acyclic(alloc, plan, &image, count, true)?;
    Ok(quiet)
}

/// The same with the plan's own image, where it is accepted and has no cycle of channel dependencies. The packets are
/// sent behind random headers where they aren't plain.
fn where_acyclic(
    alloc: Global,
    plan: &Plan,
    image: &Image,
    count: u32,
    plain: bool,
) -> Result<bool, Fail>
    requires fits { Fits image.now plan.now }
    requires never_randomized { plain ≡ true → IsNeverRandomized (routes_of plan.now image.now) }
    ensures { IfOk result (λ quiet. quiet ≡ true) }
{
    check(alloc, plan, image)?;
    let RanksOrCycle::Ranks(ranks) = find_cycle(alloc, plan, image)? else {
        return Err("a cycle of channel dependencies".into());
    };
    let quiet = by_ranks(alloc, plan, image, &ranks, count, plain)?;
    Ok(quiet)
}

/// The same by ranks that fall along the dependencies, those of both phases where there are random headers.
fn by_ranks(
    alloc: Global,
    plan: &Plan,
    image: &Image,
    ranks: &Ranks,
    count: u32,
    plain: bool,
) -> Result<bool, Fail>
    requires fits { Fits image.now plan.now }
    requires accepted { IsAccepted (routes_of plan.now image.now) }
    requires within { AreRanksWithin (input_count (routes_of plan.now image.now)) (rank_in ranks.now.by_place) }
    requires ranking { IsRanking (routes_of plan.now image.now) (rank_in ranks.now.by_place) }
    requires never_randomized { plain ≡ true → IsNeverRandomized (routes_of plan.now image.now) }
    ensures { IfOk result (λ quiet. quiet ≡ true) }
{
    let mut net = placed(alloc, plan, image)?;
    let quiet = if plain {
        settle_by(alloc, &mut net, plan, image, ranks, count)
    } else {
        settle_labels(alloc, &mut net, plan, image, ranks, count)
    };
    net.retire();
    quiet
}

/// Two packets are sent, and delivered.
fn settle_by(
    alloc: Global,
    net: &mut Net,
    plan: &Plan,
    image: &Image,
    ranks: &Ranks,
    count: u32,
) -> Result<bool, Fail>
    requires fits { Fits image.now plan.now }
    requires accepted { IsAccepted (routes_of plan.now image.now) }
    requires within { AreRanksWithin (input_count (routes_of plan.now image.now)) (rank_in ranks.now.by_place) }
    requires ranking { IsRanking (routes_of plan.now image.now) (rank_in ranks.now.by_place) }
    requires never_randomized { IsNeverRandomized (routes_of plan.now image.now) }
    requires calm { IsCalm plan.now image.now net.old }
    ensures { IfOk result (λ quiet. quiet ≡ true) }
{
    send_two(alloc, net)?;
    deliver_by(net, plan, image, ranks, count)?;
    Ok(net.quiet())
}

/// All that was sent is delivered, by the work that is left.
fn deliver_by(
    net: &mut Net,
    plan: &Plan,
    image: &Image,
    ranks: &Ranks,
    count: u32,
) -> Result<(), Fail>
    requires fits { Fits image.now plan.now }
    requires accepted { IsAccepted (routes_of plan.now image.now) }
    requires within { AreRanksWithin (input_count (routes_of plan.now image.now)) (rank_in ranks.now.by_place) }
    requires ranking { IsRanking (routes_of plan.now image.now) (rank_in ranks.now.by_place) }
    requires never_randomized { IsNeverRandomized (routes_of plan.now image.now) }
    requires calm { IsCalm plan.now image.now net.old }
    ensures { IfOk result (λ _. IsAllDelivered (routes_of plan.now image.now) net.new) }
{
    if !net.began_started() {
        return Err("a switch isn't started".into());
    }
    if !is_within_work(net, ranks, count) {
        return Err("more rounds are needed".into());
    }
    seeded_rounds(net, count)?;
    Ok(())
}

/// Two packets are sent behind random headers, and where the network stands still after `count` rounds, all is quiet.
fn over_portals(alloc: Global, plan: &Plan, count: u32) -> Result<bool, Fail>
    ensures { IfOk result (λ quiet. quiet ≡ true) }
{
    let image = image_of(alloc, plan)?;
    let quiet = where_acyclic(alloc, plan, &image, count, false)?;
    Ok(quiet)
}

/// Two packets are sent behind random headers, and what stands still then is quiet.
fn settle_labels(
    alloc: Global,
    net: &mut Net,
    plan: &Plan,
    image: &Image,
    ranks: &Ranks,
    count: u32,
) -> Result<bool, Fail>
    requires fits { Fits image.now plan.now }
    requires accepted { IsAccepted (routes_of plan.now image.now) }
    requires within { AreRanksWithin (input_count (routes_of plan.now image.now)) (rank_in ranks.now.by_place) }
    requires ranking { IsRanking (routes_of plan.now image.now) (rank_in ranks.now.by_place) }
    requires calm { IsCalm plan.now image.now net.old }
    ensures { IfOk result (λ quiet. quiet ≡ true) }
{
    send_labels(alloc, net, plan, image, count)?;
    stand_quiet(net, plan, image, ranks)
}

/// What stands still is quiet.
fn stand_quiet(net: &Net, plan: &Plan, image: &Image, ranks: &Ranks) -> Result<bool, Fail>
    requires fits { Fits image.now plan.now }
    requires accepted { IsAccepted (routes_of plan.now image.now) }
    requires within { AreRanksWithin (input_count (routes_of plan.now image.now)) (rank_in ranks.now.by_place) }
    requires ranking { IsRanking (routes_of plan.now image.now) (rank_in ranks.now.by_place) }
    requires calm { IsCalm plan.now image.now net.now }
    ensures { IfOk result (λ quiet. quiet ≡ true) }
{
    if !net.began_started() {
        return Err("a switch isn't started".into());
    }
    if !net.stands_still() {
        return Err("more rounds are needed".into());
    }
    net.has_no_deadlock();
    Ok(net.quiet())
}

/// Terminal 0 sends to terminals 1 and 3.
pub fn send_two(alloc: Global, net: &mut Net) -> Result<(), Fail>
    ensures { (plan : ThePlan) → (image : TheImage) → IsNeverRandomized (routes_of plan image) →
        IsCalm plan image net.old → IsCalm plan image net.new }
{
    let first = parse_packet(alloc, "01 aa eop")?;
    let second = parse_packet(alloc, "03 bb eop")?;
    send_plain(net, 0, first)?;
    send_plain(net, 0, second)?;
    Ok(())
}
