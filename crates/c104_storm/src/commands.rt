//! The command that lets a storm go over a description's network.
ghost use Rattle.std.specs.Prelude.{List, ℕ, ◌≡◌, ◌≤◌};
ghost use Rattle.c104_plan.specs.PlanImage.{Fits};
ghost use Rattle.c104_storm.specs.{Commands.{StormEnds, StormRuns}, Moving.NeverStandsStillOf, Packets.WritesPacketsOf, Workers.team_of};
ghost use Rattle.c104_setup.specs.declared.status.Status.TheVariants as status;

use crate::allowance::Allowance;
use crate::storms::{MAX_WORKERS, storm_plan};
use c104_lean::Words;
use c104_mistakes::Messages;
use c104_plan::{Image, Plan};
use c104_setup::{Setup, Status, read_setup};
use std::alloc::Global;
use std::io::{Read, Write};
use std::sync::Wait;
use std::thread::Threads;

/// Reads a description, and then reads and answers the `send` lines of a script on its network, started with the image of
/// its labels; then lets this many workers, 1 to 64, each in a thread of its own, do turns until all is quiet, in which they
/// hand such words to inputs, and writes what arrived in their run.
///
/// It tells people of each line that is faulty or refused, at the end of what didn't arrive, and while the workers go on
/// how many turns they have done. What is written and how it ends are the same whatever takes the messages
/// does.
///
/// Reading ends at 1 MiB of a description and at 16 MiB of a script, whatever the reader. Each error of a reader or a
/// writer is a fault at once.
#[tactic(auto, using(crate::proofs::StormPackets::packets_of_description, crate::proofs::MovingStorms::none_of_description))]
pub fn storm_command<R: Threads + Wait + Sync, D: Read, S: Read, W: Write, M: Messages>(
    alloc: Global,
    rt: &R,
    workers: u8,
    words: Words,
    allowance: Allowance,
    description: &mut D,
    script: &mut S,
    writer: &mut W,
    messages: &mut M,
) -> Status
    requires { (1 ≤ workers) × (workers ≤ MAX_WORKERS) }
    ensures ends { StormEnds (team_of workers words) (D.remaining description.old) (S.remaining script.old) (S.remaining script.new)
        (W.contents writer.old) (W.contents writer.new) result }
    ensures of_description { result ≡ status.CannotRead 0 → script.new ≡ script.old }

    // What is written behind the answers, of packets: where all is quiet, a line of each packet that was sent to a terminal,
    // whole, and none twice, by their senders and numbers.
    ensures packets { (text : List ℕ) → WritesPacketsOf (team_of workers words) text }

    // Where no channels depend on one another in a cycle, a storm never comes to a standstill: if it isn't quiet at its end, a round
    // would do something, or an inbox or a trace is full.
    ensures moving { (text : List ℕ) → NeverStandsStillOf (team_of workers words) text }
{
    let Setup { plan, image, .. } = match read_setup(alloc, description, writer, messages) {
        Ok(setup) => setup,
        Err(status) => return status,
    };
    storm_setup(
        alloc, rt, workers, words, allowance, &plan, image, script, writer, messages,
    )
}

/// The same of the network of a plan, with an image that fits it.
#[tactic(auto, using(crate::proofs::StormStatuses::storm_halts))]
fn storm_setup<R: Threads + Wait + Sync, S: Read, W: Write, M: Messages>(
    alloc: Global,
    rt: &R,
    workers: u8,
    words: Words,
    allowance: Allowance,
    plan: &Plan,
    image: Image,
    script: &mut S,
    writer: &mut W,
    messages: &mut M,
) -> Status
    requires fits { Fits image plan.now }
    requires some { (1 ≤ workers) × (workers ≤ MAX_WORKERS) }
    ensures runs { StormRuns (team_of workers words) plan.now image (S.remaining script.old) (S.remaining script.new)
        (W.contents writer.old) (W.contents writer.new) result }
    ensures of_script { (n : ℕ) → result ≡ status.CannotRead n → n ≡ 1 }
{
    match storm_plan(
        alloc, rt, workers, words, allowance, plan, image, script, writer, messages,
    ) {
        Ok(false) => Status::Done,
        Ok(true) => Status::Refused,
        Err(halt) => Status::of_halt(halt, 1),
    }
}
