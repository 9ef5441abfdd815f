//! What joins a line or a text: numbers, names, bytes of a script, and answers that are kept.
use crate::calls::PLAN;
use crate::ground::{Ground, Suite, is_right_on};
use crate::growths::{Growing, Refusal, is_right};
use crate::outcomes::Outcome;
use crate::written::Page;
use c104_plan::Plan;
use c104_script::{Answer, add_name, add_number, keep_answer};
use c104_stream::{Ahead, Halt, Kept, add_bytes};
use c104_switch::Reply;
use c104_token::NoMemory;
use std::alloc::Global;

/// What joins a text.
#[derive(Clone, Copy)]
enum Joining<'a> {
    Number,
    Name(&'a Plan),
}

impl Joining<'_> {
    fn join(self, text: &mut Vec<u8>) -> Result<(), NoMemory> {
        match self {
            Joining::Number => add_number(1_048_576, text),
            Joining::Name(plan) => add_name(plan, 1, text),
        }
    }

    fn text(self) -> &'static [u8] {
        match self {
            Joining::Number => b"1048576",
            Joining::Name(_) => b"b",
        }
    }
}

impl Growing for Joining<'_> {
    fn call(&self, alloc: Global, refusal: Refusal) -> Outcome {
        let mut text = Vec::new(alloc);
        refusal.begin(alloc);
        let result = self.join(&mut text);
        refusal.end(alloc);
        match Outcome::of(result) {
            Outcome::Done => Outcome::done_if(text.as_slice() == self.text()),
            found => found.if_kept(text.is_empty()),
        }
    }
}

/// A byte joins a line. Nothing is read ahead of it.
#[derive(Clone, Copy)]
struct AddingBytes;

impl Growing for AddingBytes {
    fn call(&self, alloc: Global, refusal: Refusal) -> Outcome {
        let Ok(mut ahead) = Ahead::new(alloc) else {
            return Outcome::Wrong;
        };
        let mut line = Vec::new(alloc);
        refusal.begin(alloc);
        let result = add_bytes(&mut ahead, &mut line, b'x', 16);
        refusal.end(alloc);
        match Outcome::of(result) {
            Outcome::Done => Outcome::done_if(line.as_slice() == b"x".as_slice()),
            found => found.if_kept(line.is_empty()),
        }
    }
}

/// An answer is kept. Out of memory nothing is written: what is kept holds none of it.
#[derive(Clone, Copy)]
struct Keeping;

impl Growing for Keeping {
    fn call(&self, alloc: Global, refusal: Refusal) -> Outcome {
        let Some(mut page) = Page::new(alloc) else {
            return Outcome::Wrong;
        };
        let Ok(mut kept) = Kept::new(alloc) else {
            return Outcome::Wrong;
        };
        let result = keep(alloc, refusal, &mut kept, &mut page);
        if kept.flush(&mut page).is_err() {
            return Outcome::Wrong;
        }
        match result {
            Ok(()) => Outcome::done_if(page.written() == b"2: done\n".as_slice()),
            Err(Halt::NoMemory) => Outcome::NoMemory.if_kept(page.written().is_empty()),
            Err(_) => Outcome::Wrong,
        }
    }
}

fn keep(alloc: Global, refusal: Refusal, kept: &mut Kept, page: &mut Page) -> Result<(), Halt> {
    let mut text = Vec::new(alloc);
    let answer = Some(Answer::Replied(Reply::Done));
    refusal.begin(alloc);
    let result = keep_answer(2, &answer, &mut text, kept, page);
    refusal.end(alloc);
    result
}

struct Joins;

impl Suite for Joins {
    fn is_right(&self, rt: &HostRuntime, ground: Ground<'_>) -> bool {
        is_right(rt, "add_number", &Joining::Number)
            && is_right(rt, "add_name", &Joining::Name(ground.plan))
            && is_right(rt, "add_bytes", &AddingBytes)
            && is_right(rt, "keep_answer", &Keeping)
    }
}

#[test]
fn texts(rt: HostRuntime) {
    assert!(rt; is_right_on(&rt, PLAN, &Joins));
}
