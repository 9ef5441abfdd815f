//! The workers of a storm: turns until all is quiet.
//!
//! A storm in which 64 turns or more did nothing isn't quiet, and no further turns are done: each event of a round was asked
//! then in the state in which all the others were, so none of them will ever be ready, unless its node was another worker's
//! each time.
ghost use Rattle.std.specs.Prelude.{◌≤◌, length};
ghost use Rattle.{c104_lean.specs.Seats.AreSeatsOf, c104_storm.specs.Workers.{HaveWorked, IsStopOf, team_of}};

use crate::allowance::Allowance;
use c104_event::EventFault;
use c104_lean::{CountedSeat, RunFault, SharedNet, Sharing, Words, run_workers};
use c104_mistakes::{Messages, Work};
use std::alloc::Global;
use std::sync::Wait;
use std::thread::Threads;

/// How often workers do turns before it is asked whether all is quiet, at most.
const MOST_TIMES: u32 = 4_096;

/// How the workers of a storm ended.
#[derive(Clone, Copy, Debug, PartialEq, Eq)]
pub(crate) enum Worked {
    /// All is quiet.
    Quiet,
    /// Tokens are left that go nowhere, or that all the turns weren't enough for.
    NotQuiet,
    /// The worker of this number stopped at an event that was refused for this.
    Stopped(usize, EventFault),
}

/// Lets workers do turns, each through one of these seats and with such words, until all is quiet, or until none of them
/// does anything in 64 turns or more. What takes the messages is told how many turns are done.
pub(crate) fn work<N: Sharing + Send + Sync, R: Threads + Wait + Sync, M: Messages>(
    alloc: Global,
    rt: &R,
    shared: &SharedNet<N>,
    seats: &mut [CountedSeat],
    words: Words,
    allowance: Allowance,
    messages: &mut M,
) -> Worked
    requires some { 1 ≤ length seats.old }
    requires own { AreSeatsOf shared.now.word_id seats.old }
    ensures own { AreSeatsOf shared.now.word_id seats.new }
    ensures worked { HaveWorked shared.now.before.plan words seats.old seats.new }
    ensures stopped { IsStopOf (team_of (length seats.old) words) shared.now.before.plan result }
{
    let turns = allowance.turns();
    let mut calls = 0;
    for times in 0..MOST_TIMES {
        if shared.quiet(rt) {
            return Worked::Quiet;
        }
        messages.progress(
            Work::Turns,
            times.saturating_mul(turns),
            MOST_TIMES.saturating_mul(turns),
        );
        if let Err(RunFault::Event(worker, fault)) = run_workers(
            alloc,
            rt,
            shared,
            seats,
            words,
            u64::from(turns),
        ) {
            return Worked::Stopped(worker, fault);
        }
        let done = count_calls(seats);
        if done == calls {
            return Worked::NotQuiet;
        }
        calls = done;
    }
    if shared.quiet(rt) {
        return Worked::Quiet;
    }
    Worked::NotQuiet
}

/// How many events were done through these seats.
fn count_calls(seats: &[CountedSeat]) -> u64 {
    let mut count = 0u64;
    for seat in seats {
        count = count.saturating_add(seat.count());
    }
    count
}
