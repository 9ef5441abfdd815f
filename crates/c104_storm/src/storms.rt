//! A storm, on the network of a plan.
//!
//! Its network is loaded, as a run's is: that this comes to the network placed with the image is proved of the load.
ghost use Rattle.{c104_lean.specs.{Seats.AreSeatsOf, Shared.record_of}, c104_plan.specs.PlanImage.{Fits, Image as TheImage}};
ghost use Rattle.{c104_plan.specs.Plans.Plan as ThePlan, c104_storm.specs.{Moving.NeverStandsStill, Packets.WritesSentPackets}};
ghost use Rattle.c104_storm.specs.{Sends.{new_sending, send_outcome}, Storms.{StormsOn, StormsPlan}, Workers.team_of};
ghost use Rattle.{c104_stream.specs.Scripts.AnswersScript, c104_turns.specs.FirstSeats.first_seats};
ghost use Rattle.std.specs.Prelude.{length, ◌≡◌, ◌≤◌};

use crate::allowance::Allowance;
use crate::endings::{Sent, write_end};
use crate::sends::Sending;
use crate::telling::explain_end;
use crate::working::work;
use c104_lean::{CountedSeat, Ready, SharedNet, Sharing, Words};
use c104_mistakes::Messages;
use c104_plan::{Image, Plan};
use c104_script::answer_lines;
use c104_stream::{Ahead, Halt};
use std::alloc::Global;
use std::io::{Read, Write};
use std::marker::Brand;
use std::sync::Wait;
use std::thread::Threads;

/// The most workers.
pub const MAX_WORKERS: u8 = 64;

/// Lets a storm go over the network of a plan, started with an image that fits it: the lines of a script are answered as
/// they are read, whose packets are sent; then workers, each in a thread of its own, do turns with such words until all is
/// quiet. At the end is written that what they did is one run, and the packets that arrived. Says whether anything was refused:
/// the script, for its length or for one of its lines, or the storm, which isn't quiet or whose worker stopped.
///
/// Where no thread can be made, the workers do their turns one after another.
#[tactic(auto, using(crate::proofs::StormPackets::packets_written, crate::proofs::MovingStorms::never_stands_still))]
pub fn storm_plan<R: Threads + Wait + Sync, S: Read, W: Write, M: Messages>(
    alloc: Global,
    rt: &R,
    workers: u8,
    words: Words,
    allowance: Allowance,
    plan: &Plan,
    image: Image,
    script: &mut S,
    writer: &mut W,
    messages: &mut M,
) -> Result<bool, Halt>
    requires fits { Fits image plan.now }
    requires some { (1 ≤ workers) × (workers ≤ MAX_WORKERS) }
    ensures storms { StormsPlan (team_of workers words) plan.now image (S.remaining script.old) (S.remaining script.new)
        (W.contents writer.old) (W.contents writer.new) result }

    // What is written behind the answers, of packets: where all is quiet, a line of each packet that was sent to a terminal,
    // whole, and none twice, by their senders and numbers.
    ensures packets { WritesSentPackets (team_of workers words) plan.now image }

    // Where no channels depend on one another in a cycle, a storm never comes to a standstill: if it isn't quiet at its end, a round
    // would do something, or an inbox or a trace is full.
    ensures moving { NeverStandsStill (team_of workers words) plan.now image }
{
    // The proof reads here what every plan and every image keeps.
    let _switches = plan.switches();
    let _settings = image.switches();
    let sending = Sending::new(alloc, plan, image)?;
    storm_script(
        alloc, rt, workers, words, allowance, sending, script, writer, messages,
    )
}

/// The same of a network that is before the first line of the script.
fn storm_script<R: Threads + Wait + Sync, S: Read, W: Write, M: Messages>(
    alloc: Global,
    rt: &R,
    workers: u8,
    words: Words,
    allowance: Allowance,
    sending: Sending,
    script: &mut S,
    writer: &mut W,
    messages: &mut M,
) -> Result<bool, Halt>
    requires some { (1 ≤ workers) × (workers ≤ MAX_WORKERS) }
    ensures { (plan : ThePlan) (image : TheImage) → sending ≡ new_sending plan image →
        StormsPlan (team_of workers words) plan image (S.remaining script.old) (S.remaining script.new)
        (W.contents writer.old) (W.contents writer.new) result }
{
    let mut sending = sending;
    match answer_sends(alloc, &mut sending, script, writer, messages) {
        Ok(is_long) => storm_net(
            alloc, rt, workers, words, allowance, sending, is_long, writer, messages,
        ),
        Err(halt) => {
            sending.retire();
            Err(halt)
        }
    }
}

/// Answers the lines of a script as they are read, whose packets are sent into a network.
#[tactic(auto, unfolding(crate::specs::Sends::send_outcome))]
fn answer_sends<S: Read, W: Write, M: Messages>(
    alloc: Global,
    sending: &mut Sending,
    script: &mut S,
    writer: &mut W,
    messages: &mut M,
) -> Result<bool, Halt>
    ensures { AnswersScript send_outcome sending.old (S.remaining script.old) (S.remaining script.new)
        (W.contents writer.old) (W.contents writer.new) sending.new result }
{
    let mut ahead = Ahead::new(alloc)?;
    answer_lines(alloc, sending, &mut ahead, script, writer, messages)
}

/// The same of a network into which a script's packets were sent.
fn storm_net<R: Threads + Wait + Sync, W: Write, M: Messages>(
    alloc: Global,
    rt: &R,
    workers: u8,
    words: Words,
    allowance: Allowance,
    sending: Sending,
    is_long: bool,
    writer: &mut W,
    messages: &mut M,
) -> Result<bool, Halt>
    requires some { (1 ≤ workers) × (workers ≤ MAX_WORKERS) }
    ensures { StormsOn (team_of workers words) sending.net is_long sending.is_faulty
        (W.contents writer.old) (W.contents writer.new) result }
{
    let Sending {
        net,
        image: _,
        is_faulty,
    } = sending;
    let sent = Sent { is_long, is_faulty };
    match Ready::new(alloc, net, usize::from(workers), allowance.events()) {
        Ok(ready) => storm_ready::<Brand, R, W, M>(
            alloc, rt, ready, words, allowance, sent, writer, messages,
        ),
        Err((net, _)) => {
            // The number of seats is one that there may be, so that there was no memory.
            net.retire();
            Err(Halt::NoMemory)
        }
    }
}

/// The same of a network that is ready to be shared.
#[tactic(auto, using(crate::proofs::SomeSeats::some_seats))]
fn storm_ready<N: Sharing + Send + Sync, R: Threads + Wait + Sync, W: Write, M: Messages>(
    alloc: Global,
    rt: &R,
    ready: Ready,
    words: Words,
    allowance: Allowance,
    sent: Sent,
    writer: &mut W,
    messages: &mut M,
) -> Result<bool, Halt>
    requires shared { (ready.word_id ≡ N.word) × (ready.before ≡ N.before) }
    requires some { 1 ≤ ready.terms.seats }
    ensures { StormsOn (team_of ready.terms.seats words) (record_of ready.before) sent.is_long sent.is_faulty
        (W.contents writer.old) (W.contents writer.new) result }
{
    match ready.into_shared::<N>(alloc) {
        Ok((shared, seats)) => storm_shared(
            alloc, rt, shared, seats, words, allowance, sent, writer, messages,
        ),
        Err((net, _)) => {
            net.retire();
            Err(Halt::NoMemory)
        }
    }
}

/// The same of a shared network, by workers that use its seats.
fn storm_shared<N: Sharing + Send + Sync, R: Threads + Wait + Sync, W: Write, M: Messages>(
    alloc: Global,
    rt: &R,
    shared: SharedNet<N>,
    seats: Vec<CountedSeat>,
    words: Words,
    allowance: Allowance,
    sent: Sent,
    writer: &mut W,
    messages: &mut M,
) -> Result<bool, Halt>
    requires some { 1 ≤ length seats.items }
    requires own { AreSeatsOf shared.word_id seats.items }
    requires first { seats.items ≡ first_seats shared.word_id shared.terms }
    requires count { 1 ≤ shared.terms.seats }
    ensures { StormsOn (team_of shared.terms.seats words) (record_of shared.before) sent.is_long sent.is_faulty
        (W.contents writer.old) (W.contents writer.new) result }
{
    let mut seats = seats;
    let list = seats.as_mut_slice();
    let worked = work(alloc, rt, &shared, list, words, allowance, messages);
    let net = shared.close(seats);
    // The proof reads here what every network with its record keeps.
    let _plan = net.told_plan();
    let written = write_end(alloc, &net, sent, worked, writer);
    if written.is_ok() {
        explain_end(alloc, &net, sent, worked, messages);
    }
    net.retire();
    written
}
