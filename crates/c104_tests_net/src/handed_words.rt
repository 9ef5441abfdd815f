//! The words that workers hand to inputs.
ghost use Rattle.std.specs.Prelude.{length, ◌≡◌, ◌≤◌};
ghost use Rattle.c104_workers.specs.Fabrics.{AreSeatsOf, handed_of};

use crate::networks::{MESH, busy_ready, fabric_of, is_run};
use c104_event::Event;
use c104_workers::{Call, Fabric, Gathered, Naming, OpenGate, Ready, Seat, Words, run_workers};
use std::alloc::Global;
use std::marker::Brand;
use std::sync::Wait;
use std::thread::Threads;

/// The workers do a turn, then two, and so on up to these.
const MOST_TURNS: u64 = 8;

/// What is seen of the turns of inputs that were done through a seat.
#[derive(Clone, Copy, Debug, PartialEq, Eq)]
struct Seen {
    turns: usize,
    // Those with word 0.
    zeros: usize,
    // Those with the word of the turn before.
    repeated: usize,
}

/// What is seen of the turns of inputs among calls.
fn seen_of(calls: &[Call]) -> Seen {
    let mut seen = Seen {
        turns: 0,
        zeros: 0,
        repeated: 0,
    };
    let mut last = None;
    for call in calls {
        if let Event::Input { word, .. } = &call.event {
            seen = with_turn(seen, last, *word);
            last = Some(*word);
        }
    }
    seen
}

/// The same with a further turn, behind one with this word.
fn with_turn(seen: Seen, last: Option<u32>, word: u32) -> Seen {
    Seen {
        turns: seen.turns.saturating_add(1),
        zeros: seen.zeros.saturating_add(usize::from(word == 0)),
        repeated: seen
            .repeated
            .saturating_add(usize::from(last == Some(word))),
    }
}

/// What is seen of the turns that two workers do, if what they leave is one run.
fn seen_by_two<R: Threads + Wait + Sync>(
    rt: &R,
    alloc: Global,
    words: Words,
) -> Option<(Seen, Seen)> {
    let ready = busy_ready(alloc, MESH, 2)?;
    seen_of_run::<Brand, R>(rt, alloc, ready, words)
}

fn seen_of_run<N: Naming + Send + Sync, R: Threads + Wait + Sync>(
    rt: &R,
    alloc: Global,
    ready: Ready,
    words: Words,
) -> Option<(Seen, Seen)>
    requires { (ready.word_id ≡ N.word) × (handed_of ready.net ≡ N.handed) }
{
    let (fabric, mut seats) = fabric_of::<N>(alloc, ready)?;
    if !seats.is_empty() {
        work(rt, alloc, &fabric, seats.as_mut_slice(), words);
    }
    let gathered = fabric.close(seats);
    let seen = seen_at_seats(&gathered);
    let is_run = is_run(alloc, &gathered);
    gathered.retire();
    if is_run { seen } else { None }
}

/// The workers are called again and again, so that they come in turn even where one has done its turns before another begins.
fn work<N: Naming + Send + Sync, R: Threads + Wait + Sync>(
    rt: &R,
    alloc: Global,
    fabric: &Fabric<N>,
    seats: &mut [Seat],
    words: Words,
)
    requires some { 1 ≤ length seats.old }
    requires own { AreSeatsOf fabric.now.word_id seats.old }
    ensures { AreSeatsOf fabric.now.word_id seats.new }
{
    for turns in 1..=MOST_TURNS {
        let _end = run_workers(alloc, rt, fabric, seats, &OpenGate, words, turns);
    }
}

fn seen_at_seats(gathered: &Gathered) -> Option<(Seen, Seen)> {
    match gathered.seats() {
        [first, second] => Some((
            seen_of(first.calls.as_slice()),
            seen_of(second.calls.as_slice()),
        )),
        _ => None,
    }
}

/// Whether each turn has word 0.
fn are_zero(seen: Seen) -> bool {
    seen.turns > 1 && seen.zeros == seen.turns
}

/// Whether words other than 0 change from turn to turn.
fn are_changing(seen: Seen) -> bool {
    seen.turns > 1 && seen.zeros == 0 && seen.repeated == 0
}

/// Without a seed each word is 0, and the audit finds a run.
#[test]
fn of_no_seed(rt: HostRuntime) {
    let seen = seen_by_two(&rt, rt.alloc(), Words::Zero);
    assert!(rt; matches!(seen, Some((first, second)) if are_zero(first) && are_zero(second)));
}

/// With a seed the words of each worker change, and the audit finds a run. It fails where a worker goes on with one word.
#[test]
fn of_a_seed(rt: HostRuntime) {
    let seen = seen_by_two(&rt, rt.alloc(), Words::Seeded(1));
    assert!(rt;
        matches!(seen, Some((first, second)) if are_changing(first) && are_changing(second))
    );
}
