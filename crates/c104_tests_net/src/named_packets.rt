//! The theorem about packets, cited for one received packet by its name.
//!
//! What a network keeps that started as an image says and that nobody changed (`IsCalm`) goes on by each call that
//! these tests make, by the contracts of `Net` alone. So where the labels are accepted all premises of the theorem
//! hold, and the contract of `Run::origins` says of a received packet which one it is.
ghost use Rattle.std.specs.{Global.Vec as Kept, Prelude.{IfOk, Some, [], slice_get, true, ℕ, ◌≡◌}};
ghost use Rattle.c104_check.specs.{ChannelDependencies.IsNeverRandomized, Routes.{IsAccepted, routes_of}};
ghost use Rattle.{c104_node.specs.declared.origins.Origin.Origin as TheOrigin, c104_plan.specs.PlanImage.{Fits, Image as TheImage}};
ghost use Rattle.{c104_plan.specs.Plans.Plan as ThePlan, c104_run.specs.FinishedRecords.record_finish};
ghost use Rattle.c104_tests_net.specs.CalmNets.{IsCalm, IsListed, IsNamed, IsNamedByCheck, IsNamedByLabels, IsNotRandom};

use crate::calls::{drop_plan, drop_run, plan_of};
use c104_check::check;
use c104_label::{image_of, label_tree};
use c104_net::{Event, EventFault, Net, Origin, Origins, PlaceFault};
use c104_plan::{Image, Plan};
use c104_token::{NoMemory, Packet, parse_packet};
use std::alloc::Global;
use std::process::Abort;
use std::test::Fail;

/// A tree of three switches, the second of which is its root.
pub const TREE: &[u8] =
    b"switch A\nswitch B\nswitch C\nterminal a A.0\nterminal b C.0\nterminal c C.1\n\
    wire A.1 B.1\nwire B.2 C.2\nlabel tree B\n";

/// Two switches with two wires, which are a group at both, and a terminal whose link deletes headers.
const GROUP: &[u8] =
    b"switch A\nswitch B\nterminal a A.0\nterminal b B.0\nwire A.2 B.2\nwire A.3 B.3\n\
    continue A.3\ncontinue B.3\ndelete b\nrow A.0 1 0\nrow A.0 2 2\nrow A.2 1 0\nrow A.3 1 0\n\
    row B.0 1 2\nrow B.0 2 0\nrow B.2 1 sink\nrow B.2 2 0\nrow B.3 1 sink\nrow B.3 2 0\n";

/// Of a labelled tree nothing has to be checked.
#[test]
fn on_a_tree(rt: HostRuntime) -> Result<(), Fail> {
    let plan = plan_of(rt.alloc(), TREE)?;
    let origin = through_tree(rt.alloc(), &plan, 40);
    drop_plan(plan);
    let due = Origin {
        terminal: 0,
        number: 1,
    };
    assert!(rt; origin? == due);
    Ok(())
}

/// Headers are deleted, links are in groups, and the run is the second of its network.
#[test]
fn over_a_group(rt: HostRuntime) -> Result<(), Fail> {
    let plan = plan_of(rt.alloc(), GROUP)?;
    let origin = in_second_run(&rt, rt.alloc(), &plan, 40);
    drop_plan(plan);
    let due = Origin {
        terminal: 0,
        number: 1,
    };
    assert!(rt; origin? == due);
    Ok(())
}

// The count of rounds comes as an argument, since the prover would compute with a literal.

/// Which packet the second one is that terminal 1 received, after two were sent there over a labelled tree.
#[tactic(auto, using(crate::proofs::NamedPackets::by_labels))]
fn through_tree(alloc: Global, plan: &Plan, count: u32) -> Result<Origin, Fail>
    ensures { IfOk result (λ origin. IsNamedByLabels plan.now 1 1 origin) }
{
    let image = label_tree(alloc, plan)?;
    let net = in_first_run(alloc, plan, &image, count)?;
    let origin = named(alloc, net, plan, &image, 1, 1)?;
    Ok(origin)
}

/// A network in which two packets were sent.
pub fn in_first_run(alloc: Global, plan: &Plan, image: &Image, count: u32) -> Result<Net, Fail>
    requires never_randomized { IsNeverRandomized (routes_of plan.now image.now) }
    ensures { IfOk result (λ net. IsCalm plan.now image.now net) }
{
    let mut net = placed(alloc, plan, image)?;
    match send_twice(alloc, &mut net, count) {
        Ok(()) => Ok(net),
        Err(error) => {
            net.retire();
            Err(error)
        }
    }
}

/// The same of a network whose labels are checked, in the second run of it.
fn in_second_run(rt: &impl Abort, alloc: Global, plan: &Plan, count: u32) -> Result<Origin, Fail>
    ensures { IfOk result (λ origin. IsNamedByCheck plan.now 1 1 origin) }
{
    if !is_plain(plan) {
        return Err("random headers".into());
    }
    let image = image_of(alloc, plan)?;
    let origin = where_checked(rt, alloc, plan, &image, count)?;
    Ok(origin)
}

/// Whether no line of a plan gives random headers.
pub fn is_plain(plan: &Plan) -> bool
    ensures { result ≡ true → plan.now.randoms ≡ [] }
{
    plan.randoms().is_empty()
}

/// The same with the plan's own image.
#[tactic(auto, using(crate::proofs::NamedPackets::by_check))]
fn where_checked(
    rt: &impl Abort,
    alloc: Global,
    plan: &Plan,
    image: &Image,
    count: u32,
) -> Result<Origin, Fail>
    requires fits { Fits image.now plan.now }
    requires never_randomized { IsNeverRandomized (routes_of plan.now image.now) }
    ensures { IfOk result (λ origin. IsNamedByCheck plan.now 1 1 origin) }
{
    check(alloc, plan, image)?;
    let net = begun_again(rt, alloc, plan, image, count)?;
    let origin = named(alloc, net, plan, image, 1, 1)?;
    Ok(origin)
}

/// A network in whose second run two packets were sent.
fn begun_again(
    rt: &impl Abort,
    alloc: Global,
    plan: &Plan,
    image: &Image,
    count: u32,
) -> Result<Net, Fail>
    requires accepted { IsAccepted (routes_of plan.now image.now) }
    requires never_randomized { IsNeverRandomized (routes_of plan.now image.now) }
    ensures { IfOk result (λ net. IsCalm plan.now image.now net) }
{
    let mut net = placed(alloc, plan, image)?;
    match send_again(alloc, &mut net, plan, image, count) {
        Ok(begun) => {
            assert!(rt; begun);
            Ok(net)
        }
        Err(error) => {
            net.retire();
            Err(error)
        }
    }
}

/// Two packets are sent and arrive, and, where a further run begins, two more; and whether it did.
fn send_again(
    alloc: Global,
    net: &mut Net,
    plan: &Plan,
    image: &Image,
    count: u32,
) -> Result<bool, Fail>
    requires accepted { IsAccepted (routes_of plan.now image.now) }
    requires never_randomized { IsNeverRandomized (routes_of plan.now image.now) }
    requires calm { IsCalm plan.now image.now net.old }
    ensures { IsCalm plan.now image.now net.new }
{
    send_twice(alloc, net, count)?;
    let begun = begin(net, plan, image);
    send_twice(alloc, net, count)?;
    Ok(begun)
}

/// A network of a plan with an image's settings.
#[tactic(auto, using(crate::proofs::CalmSteps::placed_calm))]
pub fn placed(alloc: Global, plan: &Plan, image: &Image) -> Result<Net, PlaceFault>
    ensures { IfOk result (λ net. IsCalm plan.now image.now net) }
{
    let net = Net::placed(alloc, plan, image)?;
    // The proof reads here what every network keeps.
    let _trace = net.trace(0);
    Ok(net)
}

/// The first terminal sends two packets to the second, and both arrive.
fn send_twice(alloc: Global, net: &mut Net, count: u32) -> Result<(), Fail>
    ensures { (plan : ThePlan) → (image : TheImage) → IsNeverRandomized (routes_of plan image) →
        IsCalm plan image net.old → IsCalm plan image net.new }
{
    let first = parse_packet(alloc, "01 aa eop")?;
    let second = parse_packet(alloc, "01 bb eop")?;
    send_plain(net, 0, first)?;
    send_plain(net, 0, second)?;
    rounds(net, count)?;
    Ok(())
}

/// A terminal sends a packet, where no link puts random headers before packets.
pub fn send_plain(net: &mut Net, terminal: usize, packet: Packet) -> Result<(), EventFault>
    ensures { (plan : ThePlan) → (image : TheImage) → IsNeverRandomized (routes_of plan image) →
        IsCalm plan image net.old → IsCalm plan image net.new }
{
    send(net, terminal, packet)
}

/// A terminal sends a packet whose own header is no random one.
pub fn send(net: &mut Net, terminal: usize, packet: Packet) -> Result<(), EventFault>
    ensures { (plan : ThePlan) → (image : TheImage) → IsNotRandom (routes_of plan image) packet →
        IsCalm plan image net.old → IsCalm plan image net.new }
{
    // The proof reads here that what is sent is bytes.
    let _bytes = packet.bytes.as_bytes();
    net.apply(&Event::Send { terminal, packet })?;
    Ok(())
}

/// All parts of a network take turns.
pub fn rounds(net: &mut Net, count: u32) -> Result<(), EventFault>
    ensures { (plan : ThePlan) → (image : TheImage) → IsCalm plan image net.old → IsCalm plan image net.new }
{
    net.rounds(count)
}

/// A further run begins where the network is quiet.
fn begin(net: &mut Net, plan: &Plan, image: &Image) -> bool
    requires accepted { IsAccepted (routes_of plan.now image.now) }
    requires calm { IsCalm plan.now image.now net.old }
    ensures { IsCalm plan.now image.now net.new }
{
    // The proof reads here what every plan keeps, and what every network does.
    let _switches = plan.switches();
    let _before = net.trace(0);
    let begun = net.begin();
    let _after = net.trace(0);
    begun
}

/// Which packet the one of this number is that a terminal received, by the theorem.
pub fn named(
    alloc: Global,
    net: Net,
    plan: &Plan,
    image: &Image,
    terminal: usize,
    number: usize,
) -> Result<Origin, Fail>
    requires accepted { IsAccepted (routes_of plan.now image.now) }
    requires calm { IsCalm plan.now image.now net }
    ensures { IfOk result (λ origin.
        IsNamed (routes_of plan.now image.now) (record_finish net) terminal number origin) }
{
    let lists = origins(alloc, net, plan, image)?;
    let origin = listed(lists.as_slice(), terminal, number)?;
    Ok(origin)
}

/// The origin at a place of a terminal's list.
pub fn listed(lists: &[Vec<Origin>], terminal: usize, number: usize) -> Result<Origin, Fail>
    ensures { IfOk result (λ origin. IsListed lists.now terminal number origin) }
{
    let Some(list) = lists.get(terminal) else {
        return Err("no such terminal".into());
    };
    let Some(origin) = list.get(number) else {
        return Err("no such packet".into());
    };
    Ok(*origin)
}

/// The origins of what arrived at each terminal, which name the received packets.
fn origins(
    alloc: Global,
    net: Net,
    plan: &Plan,
    image: &Image,
) -> Result<Vec<Vec<Origin>>, NoMemory>
    requires accepted { IsAccepted (routes_of plan.now image.now) }
    requires calm { IsCalm plan.now image.now net }
    ensures { IfOk result (λ lists. (t k : ℕ) → (list : Kept TheOrigin) → (origin : TheOrigin) →
        slice_get lists.items t ≡ Some list → slice_get list.items k ≡ Some origin →
        IsNamed (routes_of plan.now image.now) (record_finish net) t k origin) }
{
    let run = net.finish();
    // The proof reads here what every run keeps, and that its record tells it.
    let _starts = run.starts();
    run.tells_its_run();
    let lists = run.origins(alloc);
    drop_run(run);
    lists
}
