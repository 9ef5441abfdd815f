//! The theorem about deadlock, cited of what worker threads did: where the nodes that they left stand still, no token stands
//! anywhere, and each packet that was sent to a terminal has come there.
ghost use Rattle.std.specs.Prelude.{All, IfOk};
ghost use Rattle.c104_check.specs.{ChannelDependencies.{IsAcyclic, IsNeverRandomized}, Routes.{IsAccepted, routes_of}};
ghost use Rattle.{c104_node.specs.Starts.IsStartedStart, c104_tests_net.specs.CalmFabrics.{IsCalmLeft, IsLeftByWorkers, StandsDelivered}};
ghost use Rattle.{c104_tests_net.specs.CalmFabrics.StandsQuiet, c104_workers.specs.{Fabrics.handed_of, OneRuns.IsWhole}};

use crate::calls::{drop_plan, drop_run, plan_of};
use crate::deadlock::MESH;
use crate::found_packets::count_at;
use crate::packets_by_threads::{left_by_two, left_origins, with_two};
use c104_deadlock::NoDeadlock;
use c104_label::label_mesh;
use c104_net::{Net, Origin, Origins};
use c104_plan::{Image, Plan};
use c104_token::NoMemory;
use c104_workers::Gathered;
use std::alloc::Global;
use std::sync::Wait;
use std::test::Fail;
use std::thread::Threads;

/// Of a labelled mesh nothing has to be checked. Both packets come to where they were sent.
#[test]
fn over_a_mesh(rt: HostRuntime) -> Result<(), Fail> {
    let plan = plan_of(rt.alloc(), MESH)?;
    let counts = counts_on_mesh(&rt, rt.alloc(), &plan, 1000);
    drop_plan(plan);
    assert!(rt; counts? == (1, 1));
    Ok(())
}

// The count comes as an argument, since the prover would compute with a literal.

/// How many packets terminals 1 and 3 received, after two workers did turns over a labelled mesh.
fn counts_on_mesh<R: Threads + Wait + Sync>(
    rt: &R,
    alloc: Global,
    plan: &Plan,
    count: u32,
) -> Result<(usize, usize), Fail> {
    let image = label_mesh(alloc, plan)?;
    let lists = where_acyclic(rt, alloc, plan, &image, count)?;
    Ok((count_at(lists.as_slice(), 1), count_at(lists.as_slice(), 3)))
}

/// The origins of what arrived at each terminal, over labels whose channels don't depend on one another in a cycle.
fn where_acyclic<R: Threads + Wait + Sync>(
    rt: &R,
    alloc: Global,
    plan: &Plan,
    image: &Image,
    count: u32,
) -> Result<Vec<Vec<Origin>>, Fail>
    requires accepted { IsAccepted (routes_of plan.now image.now) }
    requires acyclic { IsAcyclic (routes_of plan.now image.now) }
    requires never_randomized { IsNeverRandomized (routes_of plan.now image.now) }
{
    let net = with_two(alloc, plan, image)?;
    let gathered = left_started(rt, alloc, net, count)?;
    let lists = delivered(alloc, gathered, plan, image)?;
    Ok(lists)
}

/// What two workers left of a network whose run began with every switch started.
fn left_started<R: Threads + Wait + Sync>(
    rt: &R,
    alloc: Global,
    net: Net,
    count: u32,
) -> Result<Gathered, Fail>
    ensures left { IfOk result (λ left. IsLeftByWorkers (handed_of net) left) }
    ensures started { IfOk result (λ left. All IsStartedStart left.handed.starts) }
{
    if !net.began_started() {
        net.retire();
        return Err("a switch isn't started".into());
    }
    let gathered = left_by_two(rt, alloc, net, count)?;
    Ok(gathered)
}

/// The origins of what arrived at each terminal: where what was left stands still, those of all that was sent.
#[tactic(auto, using(crate::proofs::CalmLeft::delivered))]
fn delivered(
    alloc: Global,
    gathered: Gathered,
    plan: &Plan,
    image: &Image,
) -> Result<Vec<Vec<Origin>>, NoMemory>
    requires accepted { IsAccepted (routes_of plan.now image.now) }
    requires acyclic { IsAcyclic (routes_of plan.now image.now) }
    requires started { All IsStartedStart gathered.handed.starts }
    requires whole { IsWhole gathered }
    requires calm { IsCalmLeft plan.now image.now gathered }
    ensures { IfOk result (λ lists.
        StandsDelivered (routes_of plan.now image.now) gathered lists.items) }
{
    let law = stands_quiet(alloc, &gathered, plan, image);
    let lists = left_origins(alloc, gathered, plan, image)?;
    law?;
    Ok(lists)
}

/// Where what was left stands still, no token stands anywhere, by the theorem: this is a law. The only error is out of memory.
fn stands_quiet(
    alloc: Global,
    gathered: &Gathered,
    plan: &Plan,
    image: &Image,
) -> Result<(), NoMemory>
    requires accepted { IsAccepted (routes_of plan.now image.now) }
    requires acyclic { IsAcyclic (routes_of plan.now image.now) }
    requires started { All IsStartedStart gathered.now.handed.starts }
    requires whole { IsWhole gathered.now }
    requires calm { IsCalmLeft plan.now image.now gathered.now }
    ensures { IfOk result (λ _. StandsQuiet gathered.now) }
{
    // The proof reads here what the type of what is left keeps.
    let _plan = gathered.plan();
    let run = gathered.run(alloc)?;
    run.tells_its_run();
    run.has_no_deadlock();
    drop_run(run);
    Ok(())
}
