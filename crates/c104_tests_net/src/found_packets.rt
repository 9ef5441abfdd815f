//! The theorem about packets, cited for a network that was quiet when it was finished: no packet that was sent is
//! missing, and none is there twice.
ghost use Rattle.std.specs.Prelude.{IfOk, true, ◌≡◌};
ghost use Rattle.{c104_check.specs.Routes.{IsAccepted, routes_of}, c104_run.specs.{NetRecords.IsNetRecord, QuietNets.IsQuiet}};
ghost use Rattle.c104_tests_net.specs.{CalmNets.IsCalm, FoundPackets.AreFoundOnce};

use crate::calls::{drop_plan, drop_run, plan_of};
use crate::named_packets::{TREE, in_first_run};
use c104_label::label_tree;
use c104_net::{Net, Origin, Origins};
use c104_plan::{Image, Plan};
use c104_token::NoMemory;
use std::alloc::Global;
use std::test::Fail;

/// Of two packets that were sent over a labelled tree both are found.
#[test]
fn both_are_found(rt: HostRuntime) -> Result<(), Fail> {
    let plan = plan_of(rt.alloc(), TREE)?;
    let count = count_on_tree(rt.alloc(), &plan, 40);
    drop_plan(plan);
    assert!(rt; count? == 2);
    Ok(())
}

/// How many packets the second terminal received, after two were sent to it.
fn count_on_tree(alloc: Global, plan: &Plan, count: u32) -> Result<usize, Fail> {
    let image = label_tree(alloc, plan)?;
    let net = in_first_run(alloc, plan, &image, count)?;
    let lists = found(alloc, net, plan, &image)?;
    Ok(count_at(lists.as_slice(), 1))
}

/// How many packets a terminal received.
pub fn count_at(lists: &[Vec<Origin>], terminal: usize) -> usize {
    match lists.get(terminal) {
        Some(list) => list.len(),
        None => 0,
    }
}

/// The origins of what arrived at each terminal, where all is quiet: of each packet that was sent, and of none twice.
fn found(alloc: Global, net: Net, plan: &Plan, image: &Image) -> Result<Vec<Vec<Origin>>, Fail>
    requires accepted { IsAccepted (routes_of plan.now image.now) }
    requires calm { IsCalm plan.now image.now net }
    ensures { IfOk result (λ lists.
        AreFoundOnce (routes_of plan.now image.now) net.network lists.items) }
{
    if !is_quiet(&net) {
        net.retire();
        return Err("a token stands somewhere".into());
    }
    let lists = quiet_origins(alloc, net, plan, image)?;
    Ok(lists)
}

/// Whether a network is quiet.
fn is_quiet(net: &Net) -> bool
    ensures quiet { result ≡ true → IsQuiet net.now.network }
    ensures kept { IsNetRecord net.now }
{
    // The proof reads here what every network keeps.
    let _trace = net.trace(0);
    net.quiet()
}

/// The same, of a network that is quiet.
fn quiet_origins(
    alloc: Global,
    net: Net,
    plan: &Plan,
    image: &Image,
) -> Result<Vec<Vec<Origin>>, NoMemory>
    requires accepted { IsAccepted (routes_of plan.now image.now) }
    requires calm { IsCalm plan.now image.now net }
    requires quiet { IsQuiet net.network }
    requires kept { IsNetRecord net }
    ensures { IfOk result (λ lists.
        AreFoundOnce (routes_of plan.now image.now) net.network lists.items) }
{
    let run = net.finish();
    // The proof reads here that the run is the one that the network's record tells.
    run.tells_its_run();
    let lists = run.origins(alloc);
    drop_run(run);
    lists
}
