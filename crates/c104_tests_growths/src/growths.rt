//! Growths of memory that are refused while a call is made.
//!
//! A program can't refuse memory to itself: every call takes it from the one `Global`. So `tests/refused_growths` loads
//! a library before the program of these tests, and a test tells it by the size of a block that it asks for which growth
//! is to be refused next: none of the tested calls asks for such a size. Without that library nothing is refused, and each
//! call succeeds at once.
//!
//! A test fails where a call always answers that it is out of memory: with nothing refused it has to succeed. It fails where
//! a call goes on after a refusal with less than it asked for, and where it changes what it was lent before its last growth.
//! What else each refuses stands beside it.
ghost use Rattle.std.specs.Thread.{IsSync};

use crate::ground::Ground;
use crate::outcomes::Outcome;
use std::alloc::Global;
use std::sync::Wait;
use std::thread::Threads;

/// A block of this size says that no growth is refused. The library has the same numbers.
const MARK: usize = 12_648_449;

/// One that is larger by a number says that the growth of this number is refused, and each one after it.
const NUMBERS: usize = 65_536;

/// One that is larger than these by a number says that the growth of this number alone is refused.
const ALONE: usize = MARK + NUMBERS;

/// No call has as many growths.
const MOST: usize = NUMBERS - 1;

/// Which growths are refused.
#[derive(Clone, Copy)]
pub enum Refusal {
    /// The one of this number, and all after it.
    From(usize),
    /// The one of this number alone: a list that isn't given twice its room asks again for what it needs.
    Only(usize),
}

impl Refusal {
    /// Counts growths from here on, and refuses them.
    pub fn begin(self, alloc: Global) {
        match self {
            Refusal::From(number) => mark(alloc, MARK.saturating_add(number)),
            Refusal::Only(number) => mark(alloc, ALONE.saturating_add(number)),
        }
    }

    /// Refuses none from here on.
    pub fn end(self, alloc: Global) {
        mark(alloc, MARK);
    }
}

/// Takes a block of this size, and gives it back.
fn mark(alloc: Global, size: usize) {
    let _block: Result<Vec<u8>, _> = Vec::with_capacity(alloc, size);
}

/// A call that takes memory.
pub trait Growing {
    /// Makes the call, with growths refused from its begin to its end.
    fn call(&self, alloc: Global, refusal: Refusal) -> Outcome;
}

/// How many growths a call has: it is made with the first and all after it refused and with the first alone, then with the
/// second, until it succeeds. None where one comes out wrong.
pub fn count_growths<G: Growing>(alloc: Global, call: &G) -> Option<usize> {
    for count in 0..MOST {
        let found = call.call(alloc, Refusal::From(count + 1));
        let alone = call.call(alloc, Refusal::Only(count + 1));
        match if_right_alone(found, alone) {
            Outcome::Done => return Some(count),
            Outcome::NoMemory => {}
            Outcome::Wrong => return None,
        }
    }
    None
}

/// A call on a ground that takes memory, to which a handle is lent that its threads share, or by which it waits.
pub trait Sharing {
    /// Makes the call, with growths refused from its begin to its end.
    fn call<R: Threads + Wait + Sync>(
        &self,
        rt: &R,
        alloc: Global,
        ground: Ground<'_>,
        refusal: Refusal,
    ) -> Outcome
        requires { IsSync R.row };
}

/// The same of a call to which a handle is lent.
pub fn count_shared_growths<R: Threads + Wait + Sync, C: Sharing>(
    rt: &R,
    alloc: Global,
    ground: Ground<'_>,
    call: &C,
) -> Option<usize> {
    for count in 0..MOST {
        let found = call.call(rt, alloc, ground, Refusal::From(count + 1));
        let alone = call.call(rt, alloc, ground, Refusal::Only(count + 1));
        match if_right_alone(found, alone) {
            Outcome::Done => return Some(count),
            Outcome::NoMemory => {}
            Outcome::Wrong => return None,
        }
    }
    None
}

/// What a call came to with a growth and all after it refused, if it is right with that one alone refused.
fn if_right_alone(found: Outcome, alone: Outcome) -> Outcome {
    match alone {
        Outcome::Wrong => Outcome::Wrong,
        _ => found,
    }
}

/// Tells that a call has no growth, if it is right with all refused.
pub fn is_none_told(rt: &HostRuntime, name: &str, growths: Option<usize>) -> bool {
    growths == Some(0) && println!(rt; "{name}: no growth").is_ok()
}

/// Tells how many growths a call has, if it is right with each of them refused.
pub fn is_told(rt: &HostRuntime, name: &str, growths: Option<usize>) -> bool {
    match growths {
        Some(count) => println!(rt; "{name}: {count} growths").is_ok(),
        None => false,
    }
}

/// Whether a call is right with each of its growths refused; their number is told.
pub fn is_right<G: Growing>(rt: &HostRuntime, name: &str, call: &G) -> bool {
    is_told(rt, name, count_growths(rt.alloc(), call))
}

/// Whether a call that takes no memory succeeds with every growth refused.
pub fn takes_none<G: Growing>(rt: &HostRuntime, name: &str, call: &G) -> bool {
    is_none_told(rt, name, count_growths(rt.alloc(), call))
}
