//! The theorem about packets, cited of what worker threads did.
//!
//! What nobody changed stays so by all that workers do (`IsCalmLeft`), by the contracts of `Fabric` and `run_workers` alone.
//! So where the labels are accepted all premises of the theorem hold of the run that the seats' calls tell, which
//! `Gathered::run` gives, as of a run of one thread; and the contract of `Run::origins` says of a received packet which
//! one it is.
ghost use Rattle.{c104_check.specs.{ChannelDependencies.IsNeverRandomized, Routes.{IsAccepted, routes_of}}, c104_plan.specs.PlanImage.Fits};
ghost use Rattle.c104_tests_net.specs.CalmFabrics.{AreLeftOrigins, HaveDoneRounds, IsCalmLeft, IsLeftByWorkers, IsNamedBySeats};
ghost use Rattle.{c104_tests_net.specs.CalmNets.{IsCalm, IsNamedByCheck}, c104_turns.specs.FirstSeats.first_seats};
ghost use Rattle.c104_workers.specs.{Fabrics.{AreSeatsOf, handed_of, seat_view}, OneRuns.IsWhole};
ghost use Rattle.std.specs.Prelude.{IfOk, length, map, ◌≡◌, ◌≤◌};

use crate::calls::{drop_plan, drop_run, plan_of};
use crate::deadlock::{MESH, send_two};
use crate::named_packets::{listed, placed};
use c104_check::check;
use c104_label::label_mesh;
use c104_net::{Net, Origin, Origins};
use c104_plan::{Image, Plan};
use c104_token::NoMemory;
use c104_workers::{Fabric, Gathered, Naming, OpenGate, Ready, Seat, Words, run_workers};
use std::alloc::Global;
use std::marker::Brand;
use std::sync::Wait;
use std::test::Fail;
use std::thread::Threads;

/// How many turns workers do before it is asked whether all is quiet.
const TURNS: u64 = 4;

/// Terminal 3 receives the second packet that terminal 0 sent.
#[test]
fn over_a_mesh(rt: HostRuntime) -> Result<(), Fail> {
    let plan = plan_of(rt.alloc(), MESH)?;
    let origin = by_two_workers(&rt, rt.alloc(), &plan, 1000);
    drop_plan(plan);
    let due = Origin {
        terminal: 0,
        number: 1,
    };
    assert!(rt; origin? == due);
    Ok(())
}

// The count comes as an argument, since the prover would compute with a literal.

/// Which packet the first one is that terminal 3 received, after two workers did turns over a labelled mesh.
fn by_two_workers<R: Threads + Wait + Sync>(
    rt: &R,
    alloc: Global,
    plan: &Plan,
    count: u32,
) -> Result<Origin, Fail>
    ensures { IfOk result (λ origin. IsNamedByCheck plan.now 3 0 origin) }
{
    let image = label_mesh(alloc, plan)?;
    let origin = where_checked(rt, alloc, plan, &image, count)?;
    Ok(origin)
}

/// The same over labels that are checked.
fn where_checked<R: Threads + Wait + Sync>(
    rt: &R,
    alloc: Global,
    plan: &Plan,
    image: &Image,
    count: u32,
) -> Result<Origin, Fail>
    requires fits { Fits image.now plan.now }
    requires never_randomized { IsNeverRandomized (routes_of plan.now image.now) }
    ensures { IfOk result (λ origin. IsNamedByCheck plan.now 3 0 origin) }
{
    check(alloc, plan, image)?;
    let net = with_two(alloc, plan, image)?;
    let gathered = left_by_two(rt, alloc, net, count)?;
    let origin = named(alloc, gathered, plan, image, 3, 0)?;
    Ok(origin)
}

/// A network in which terminal 0 sends to terminals 1 and 3.
pub fn with_two(alloc: Global, plan: &Plan, image: &Image) -> Result<Net, Fail>
    requires { IsNeverRandomized (routes_of plan.now image.now) }
    ensures { IfOk result (λ net. IsCalm plan.now image.now net) }
{
    let mut net = placed(alloc, plan, image)?;
    match send_two(alloc, &mut net) {
        Ok(()) => Ok(net),
        Err(error) => {
            net.retire();
            Err(error)
        }
    }
}

/// What two workers left of a network, who did turns until all was quiet, or as often as asked.
pub fn left_by_two<R: Threads + Wait + Sync>(
    rt: &R,
    alloc: Global,
    net: Net,
    count: u32,
) -> Result<Gathered, Fail>
    ensures { IfOk result (λ left. IsLeftByWorkers (handed_of net) left) }
{
    match Ready::new(alloc, net, 2) {
        Ok(ready) => left_ready::<Brand, R>(rt, alloc, ready, count),
        Err((net, fault)) => {
            net.retire();
            Err(fault.into())
        }
    }
}

/// The same of a network that is ready for a fabric.
fn left_ready<N: Naming + Send + Sync, R: Threads + Wait + Sync>(
    rt: &R,
    alloc: Global,
    ready: Ready,
    count: u32,
) -> Result<Gathered, Fail>
    requires named { (ready.word_id ≡ N.word) × (handed_of ready.net ≡ N.handed) }
    requires some { 1 ≤ ready.terms.seats }
    ensures { IfOk result (λ left. IsLeftByWorkers (handed_of ready.net) left) }
{
    match ready.into_fabric::<N>(alloc) {
        Ok((fabric, seats)) => Ok(closed(rt, alloc, fabric, seats, count)),
        Err((net, fault)) => {
            net.retire();
            Err(fault.into())
        }
    }
}

/// Workers do turns through all seats of a fabric; then it ends with these.
fn closed<N: Naming + Send + Sync, R: Threads + Wait + Sync>(
    rt: &R,
    alloc: Global,
    fabric: Fabric<N>,
    seats: Vec<Seat>,
    count: u32,
) -> Gathered
    requires some { 1 ≤ length seats.items }
    requires own { AreSeatsOf fabric.word_id seats.items }
    requires first { map seat_view seats.items ≡ first_seats fabric.word_id fabric.terms }
    ensures { IsLeftByWorkers fabric.handed result }
{
    let mut seats = seats;
    work(rt, alloc, &fabric, seats.as_mut_slice(), count);
    fabric.close(seats)
}

/// Workers do turns until all is quiet, or as often as asked, whether they are stopped or not.
fn work<N: Naming + Send + Sync, R: Threads + Wait + Sync>(
    rt: &R,
    alloc: Global,
    fabric: &Fabric<N>,
    seats: &mut [Seat],
    count: u32,
)
    requires some { 1 ≤ length seats.old }
    requires own { AreSeatsOf fabric.now.word_id seats.old }
    ensures own { AreSeatsOf fabric.now.word_id seats.new }
    ensures done { HaveDoneRounds seats.old seats.new }
{
    for _times in 0..count {
        if fabric.quiet(rt) {
            return;
        }
        let _end = run_workers(alloc, rt, fabric, seats, &OpenGate, Words::Zero, TURNS);
    }
}

/// Which packet the one of this number is that a terminal received, by the theorem.
fn named(
    alloc: Global,
    gathered: Gathered,
    plan: &Plan,
    image: &Image,
    terminal: usize,
    number: usize,
) -> Result<Origin, Fail>
    requires accepted { IsAccepted (routes_of plan.now image.now) }
    requires whole { IsWhole gathered }
    requires calm { IsCalmLeft plan.now image.now gathered }
    ensures { IfOk result (λ origin.
        IsNamedBySeats (routes_of plan.now image.now) gathered terminal number origin) }
{
    let lists = left_origins(alloc, gathered, plan, image)?;
    let origin = listed(lists.as_slice(), terminal, number)?;
    Ok(origin)
}

/// The origins of what arrived at each terminal, in the run that the seats' calls tell.
pub fn left_origins(
    alloc: Global,
    gathered: Gathered,
    plan: &Plan,
    image: &Image,
) -> Result<Vec<Vec<Origin>>, NoMemory>
    requires accepted { IsAccepted (routes_of plan.now image.now) }
    requires whole { IsWhole gathered }
    requires calm { IsCalmLeft plan.now image.now gathered }
    ensures { IfOk result (λ lists.
        AreLeftOrigins (routes_of plan.now image.now) gathered lists.items) }
{
    // The proof reads here what the type of what is left keeps.
    let _plan = gathered.plan();
    let told = gathered.run(alloc);
    gathered.retire();
    let run = told?;
    // And here what every run keeps, and that its record tells it.
    let _starts = run.starts();
    run.tells_its_run();
    let lists = run.origins(alloc);
    drop_run(run);
    lists
}
