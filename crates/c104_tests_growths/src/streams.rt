//! What is read from a reader and kept for a writer.
use crate::growths::{Growing, Refusal, is_right};
use crate::outcomes::Outcome;
use c104_script::read_first_part;
use c104_stream::{Ahead, Kept, ReadFault, read_up_to};
use std::alloc::Global;

/// A description and a script in one text.
const TEXT: &[u8] = b"switch A\nterminal a A.0\nscript\ninput A.0\n";

/// The bytes of the first line behind its first byte.
const REST_OF_LINE: usize = 7;

/// What is made to read or to write with.
#[derive(Clone, Copy)]
enum Made {
    Ahead,
    Kept,
}

impl Growing for Made {
    fn call(&self, alloc: Global, refusal: Refusal) -> Outcome {
        refusal.begin(alloc);
        let found = match self {
            Made::Ahead => Outcome::of(Ahead::new(alloc)),
            Made::Kept => Outcome::of(Kept::new(alloc)),
        };
        refusal.end(alloc);
        found
    }
}

/// What is read.
#[derive(Clone, Copy)]
enum Read {
    /// All of a text.
    All,
    /// Its description.
    FirstPart,
}

impl Growing for Read {
    fn call(&self, alloc: Global, refusal: Refusal) -> Outcome {
        match self {
            Read::All => all_read(alloc, refusal),
            Read::FirstPart => first_part_read(alloc, refusal),
        }
    }
}

fn all_read(alloc: Global, refusal: Refusal) -> Outcome {
    refusal.begin(alloc);
    let result = read_all(alloc);
    refusal.end(alloc);
    Outcome::of(result)
}

fn read_all(alloc: Global) -> Result<Vec<u8>, ReadFault> {
    let mut text = TEXT;
    read_up_to(alloc, 4096, &mut text)
}

fn first_part_read(alloc: Global, refusal: Refusal) -> Outcome {
    let Ok(mut ahead) = Ahead::new(alloc) else {
        return Outcome::Wrong;
    };
    refusal.begin(alloc);
    let result = read_front(alloc, &mut ahead);
    refusal.end(alloc);
    Outcome::of(result)
}

fn read_front(alloc: Global, ahead: &mut Ahead) -> Result<Vec<u8>, ReadFault> {
    let mut text = TEXT;
    read_first_part(alloc, ahead, &mut text)
}

/// What was read ahead of a line joins a text. Where it is refused, the text is empty, and all of it joins then. It fails
/// where bytes are taken before there is room for them.
#[derive(Drop)]
struct Taking;

impl Growing for Taking {
    fn call(&self, alloc: Global, refusal: Refusal) -> Outcome {
        let Some(mut ahead) = first_taken(alloc) else {
            return Outcome::Wrong;
        };
        let mut line = Vec::new(alloc);
        refusal.begin(alloc);
        let result = ahead.take_before(b'\n', 4096, &mut line);
        refusal.end(alloc);
        match result {
            Ok(count) => Outcome::done_if(count == REST_OF_LINE && line.len() == REST_OF_LINE),
            Err(fault) => {
                let is_empty = line.is_empty();
                let takes = ahead.take_before(b'\n', 4096, &mut line) == Ok(REST_OF_LINE);
                Outcome::of_fault(&fault).if_kept(is_empty && takes)
            }
        }
    }
}

/// A text of which all is read, and the first byte taken.
fn first_taken(alloc: Global) -> Option<Ahead> {
    let mut ahead = Ahead::new(alloc).ok()?;
    let mut text = TEXT;
    match ahead.next_byte(&mut text) {
        Ok(Some(_)) => Some(ahead),
        _ => None,
    }
}

#[test]
fn streams(rt: HostRuntime) {
    assert!(rt; is_right(&rt, "Ahead::new", &Made::Ahead));
    assert!(rt; is_right(&rt, "Kept::new", &Made::Kept));
    assert!(rt; is_right(&rt, "read_up_to", &Read::All));
    assert!(rt; is_right(&rt, "read_first_part", &Read::FirstPart));
    assert!(rt; is_right(&rt, "Ahead::take_before", &Taking));
}
