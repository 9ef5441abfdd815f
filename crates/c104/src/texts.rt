//! The texts that the command line names: a description, which ends before the first line of its text whose only word
//! is `script`, and the script, which is a text of its own or follows that line. Each error is how the command ends.

use crate::command_line::{Order, STANDARD_INPUT};
use crate::opening::{HostSource, open_both, open_path, see_open};
use crate::sources::Source;
use crate::told::Told;
use c104_host::{HeldText, hold};
use c104_plan::MAX_DESCRIPTION;
use c104_script::read_first_part;
use c104_setup::Status;
use c104_stream::{Ahead, Halt, MAX_SCRIPT, ReadFault};
use std::alloc::{AllocError, Global};
use std::io::{Chain, Cursor, Read};

/// Where a script comes from: a file, of which all was read, or standard input, which is read line by line.
pub type Script = Source<HeldText, Rest>;

/// What was read of a text with its description, and then what is left of the text.
pub type Rest = Chain<Cursor<Vec<u8>>, HostSource>;

/// The system's number of why a script couldn't be read, where it couldn't and the system has one.
pub fn script_fault(script: &Script) -> Option<i32> {
    match script {
        Source::File(text) => text.fault(),
        Source::Input(rest) => {
            let (_, source) = rest.get_ref();
            source.fault()
        }
    }
}

/// A description that was read, and its script.
#[derive(Drop)]
pub struct Texts {
    /// The description, or a byte more of it than it may have.
    pub description: Vec<u8>,
    /// The script.
    pub script: Script,
}

/// The first part of a text.
#[derive(Drop)]
pub struct Front {
    /// The description, or a byte more of it than it may have.
    pub description: Vec<u8>,
    /// What was read of the text behind it and its line `script`.
    pub ahead: Vec<u8>,
    /// Whether there is that line.
    pub has_script: bool,
}

impl Front {
    /// Reads a description up to its line `script`, or to the end of its text.
    fn read(alloc: Global, source: &mut HostSource) -> Result<Self, ReadFault> {
        let mut ahead = Ahead::new(alloc)?;
        let description = read_first_part(alloc, &mut ahead, source)?;
        let ahead = drained(alloc, &mut ahead)?;
        // All that was taken is the description, unless there was that line, which is left out.
        let taken = source.given().saturating_sub(ahead.len());
        Ok(Front {
            has_script: description.len() < taken,
            description,
            ahead,
        })
    }

    /// How many lines stand before the script in its text.
    pub fn lines_before_script(&self) -> usize {
        feeds_of(self.description.as_slice()).saturating_add(1)
    }
}

/// Takes what was read and not yet taken, of which there is far less than the loop would take.
fn drained(alloc: Global, ahead: &mut Ahead) -> Result<Vec<u8>, ReadFault> {
    let mut bytes = Vec::new(alloc);
    let mut nothing: &[u8] = &[];
    for _ in 0..u64::MAX {
        let Some(byte) = ahead.next_byte(&mut nothing)? else {
            return Ok(bytes);
        };
        bytes.push(byte).map_err(AllocError::from)?;
    }
    Ok(bytes)
}

/// How many lines end in a piece of a text.
pub fn feeds_of(piece: &[u8]) -> usize {
    piece.iter().filter(|byte| **byte == b'\n').count()
}

/// Opens a path and reads the description of its text.
pub fn read_description_of(
    rt: &HostRuntime,
    path: &str,
    told: &mut Told<'_>,
) -> Result<Vec<u8>, Status> {
    let source = open_path(rt, path, 0, told)?;
    description_of(rt, source, told)
}

/// Reads the description of a text. What follows it goes.
fn description_of(
    rt: &HostRuntime,
    source: HostSource,
    told: &mut Told<'_>,
) -> Result<Vec<u8>, Status> {
    let mut source = source;
    let front = read_front(rt, &mut source, told)?;
    Ok(front.description)
}

/// Reads the description of a text.
pub fn read_front(
    rt: &HostRuntime,
    source: &mut HostSource,
    told: &mut Told<'_>,
) -> Result<Front, Status> {
    match Front::read(rt.alloc(), source) {
        Ok(front) => Ok(front),
        Err(fault) => {
            told.fault = source.fault();
            Err(Status::of_halt(Halt::from(fault), 0))
        }
    }
}

/// Opens what an order names, and reads the description, and of a file the script. A script that isn't named follows
/// the description in its text; and so does one where both are standard input.
pub fn open_texts<'a>(
    rt: &HostRuntime,
    order: Order<'a>,
    told: &mut Told<'a>,
) -> Result<Texts, Status> {
    match order.script {
        Some(script) if script != STANDARD_INPUT || order.description != STANDARD_INPUT => {
            open_two(rt, order.description, script, told)
        }
        script => open_one(rt, order.description, script.is_none(), told),
    }
}

/// Opens a description and a script of two texts. What follows a description isn't its script here.
fn open_two(
    rt: &HostRuntime,
    description: &str,
    script: &str,
    told: &mut Told<'_>,
) -> Result<Texts, Status> {
    let (description, source) = open_both(rt, description, script, told)?;
    let description = description_of(rt, description, told)?;
    let script = script_of(rt.alloc(), script, Vec::new(rt.alloc()), source)?;
    Ok(Texts {
        description,
        script,
    })
}

/// Opens a text of a description and its script. Where the script is wanted, the text has a line `script`.
fn open_one<'a>(
    rt: &HostRuntime,
    path: &'a str,
    is_wanted: bool,
    told: &mut Told<'a>,
) -> Result<Texts, Status> {
    see_open(rt, path, 0, told)?;
    let mut source = open_path(rt, path, 0, told)?;
    let front = read_front(rt, &mut source, told)?;
    if is_wanted {
        want_script(rt, path, &front, told)?;
    }
    told.note_script(path, front.lines_before_script());
    let (description, ahead) = (front.description, front.ahead);
    let script = script_of(rt.alloc(), path, ahead, source)?;
    Ok(Texts {
        description,
        script,
    })
}

/// A text without its line `script` is wrong usage, unless what it has is more than a description may have, which the
/// command tells.
fn want_script(
    rt: &HostRuntime,
    path: &str,
    front: &Front,
    told: &mut Told<'_>,
) -> Result<(), Status> {
    if front.has_script || front.description.len() > MAX_DESCRIPTION {
        return Ok(());
    }
    let _ = eprintln!(rt;
        "error: {path} has no line \"script\", so SCRIPT is wanted\n\nFor more information, try '--help'."
    );
    Err(told.wrong_word())
}

/// The script of a path that is open, of which this was read. The only error is out of memory.
fn script_of(
    alloc: Global,
    path: &str,
    ahead: Vec<u8>,
    source: HostSource,
) -> Result<Script, Status> {
    let mut rest = Cursor::new(ahead).chain(source);
    if path == STANDARD_INPUT {
        return Ok(Source::Input(rest));
    }
    match hold(alloc, MAX_SCRIPT, &mut rest) {
        Ok(text) => Ok(Source::File(text)),
        Err(AllocError) => Err(Status::NoMemory),
    }
}
