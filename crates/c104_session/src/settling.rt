//! Rounds until a network stands still.
ghost use Rattle.std.specs.Prelude.{All, Err, IfOk, OnErr, OnOk, true, ◌<◌, ◌≡◌, ◌⊎◌};
ghost use Rattle.{c104_node.specs.TracedRecords.{IsFit, TracedRecord}, c104_rows.specs.Standing.is_still};
ghost use Rattle.{c104_run.specs.NetRecords.NetRecord as TheNet, c104_script.specs.declared.answers.Answer.Answer as TheAnswer};
ghost use Rattle.c104_session.specs.{FurtherRounds.Settles, Leavings.LeavesRounds, Settling.{is_quiet, rounds_at_most, rounds_to_rest}};
ghost use Rattle.c104_session.specs.{Settling.{settle_outcome, settled_at}, SettlingEnds.RoundsEnd};
ghost use Rattle.c104_event.specs.declared.faults.EventFault.TheVariants as fault;
ghost use Rattle.c104_run.specs.declared.words.Words.TheVariants as words;

use crate::driver::Driver;
use c104_deadlock::LeftWork;
use c104_event::EventFault;
use c104_net::{TracedNet, Watch};
use c104_node::CountedNode;
use c104_rows::stands_still;
use c104_script::{Answer, MAX_ROUNDS, Settled};
use c104_token::NoMemory;

/// Does rounds until the network stands still, up to the first event that is refused, and says what answers that. There are
/// at most as many as `most_rounds` tells, which are enough where the labels are accepted, nobody changed the network, its
/// channels don't depend on one another in a cycle and no random headers are put before packets. The only error is out of
/// memory: then the first of their events are done.
#[tactic(auto, using(crate::proofs::SettledRounds::settled_due, crate::proofs::SettledRounds::refused_due, crate::proofs::SettledRounds::unsettled_left))]
pub(crate) fn answer_settle<D: Driver, W: Watch>(
    net: &mut TracedNet,
    driver: &mut D,
    watch: &mut W,
) -> Result<Answer, NoMemory>
    ensures answered { IfOk result (λ answer. ◌≡◌ {A = TheAnswer × TheNet}
        (answer, net.new) (settle_outcome net.old (rounds_to_rest net.old))) }
    ensures left { OnErr result (LeavesRounds words.Zero net.old (rounds_to_rest net.old) net.new) }
    ensures driven { OnOk result (driver.new ≡ D.drives.rounds driver.old net.old words.Zero (rounds_to_rest net.old)) }
{
    let most = most_rounds(net);
    match settle(net, driver, watch, most) {
        Ok(rounds) => Ok(Answer::Settled(settled_at(net, rounds, most))),
        Err(EventFault::NoMemory) => Err(NoMemory),
        Err(fault) => Ok(Answer::Refused(fault)),
    }
}

/// The most rounds that are done until the network stands still: 10,000, or one more than the bound of the work that is left, if
/// that is more, so that they are enough; but no more than a `u32` counts, for which traces have no room.
fn most_rounds(net: &TracedNet) -> u32
    ensures { result ≡ rounds_at_most net.now }
{
    let enough = net.work_bound().saturating_add(1);
    let most = enough.max(u64::from(MAX_ROUNDS));
    most.min(u64::from(u32::MAX)) as u32
}

/// Does rounds until the network stands still, up to the most that there may be and the first event that is refused, and
/// tells how many.
fn settle<D: Driver, W: Watch>(
    net: &mut TracedNet,
    driver: &mut D,
    watch: &mut W,
    most: u32,
) -> Result<u32, EventFault>
    requires { most ≡ rounds_at_most net.old }
    ensures due { Settles net.old result net.new }
    ensures driven { (driver.new ≡ D.drives.rounds driver.old net.old words.Zero (rounds_to_rest net.old))
        ⊎ (result ≡ Err fault.NoMemory) }
{
    for round in 0..most {
        let done = driver.further_round(net)?;
        if !done {
            return Ok(round);
        }
        watch.rounds_done(round + 1, most);
    }
    Ok(most)
}

/// How rounds ended that left a network so, which stands still if there were fewer than the most.
fn settled_at(net: &TracedNet, rounds: u32, most: u32) -> Settled
    requires { rounds < most → is_still net.now.network ≡ true }
    ensures { result ≡ settled_at rounds net.now.network }
{
    if rounds >= most && !stands_still(net) {
        return Settled::Moving(rounds);
    }
    if !is_quiet(net) {
        return Settled::StandsStill(rounds);
    }
    Settled::Done(rounds)
}

/// Where `AlwaysSettles` says so, rounds end before there are as many as there may be, whatever they come to. This is a law: it is
/// called before the rounds that it is about. It changes nothing and takes no memory.
pub(crate) fn rounds_end(net: &TracedNet)
    ensures { RoundsEnd net.now }
{
    // The proof reads by these names what every plan, and every such network, keeps.
    let plan = net.plan();
    let _switches = plan.switches();
    read_counts(net.places());
}

/// Each entry of these nodes' traces is within the limits of a packet. The proof reads it here.
fn read_counts(nodes: &[CountedNode])
    ensures { All (λ (n : TracedRecord). All IsFit n.trace) nodes.now }
{
    for node in nodes {
        let _arrived = node.arrived();
    }
}

/// Whether a network is quiet.
fn is_quiet(net: &TracedNet) -> bool
    ensures { result ≡ is_quiet net.now.network }
{
    net.quiet()
}
