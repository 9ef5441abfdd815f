//! The command `debug`: a script that comes line by line from standard input, or what goes on there behind that of a
//! file.

use crate::command_line::STANDARD_INPUT;
use crate::opening::{HostSource, open_path, see_open};
use crate::texts::{Front, read_front};
use crate::told::Told;
use crate::typed::{Ending, Typed};
use c104_host::Recorded;
use c104_mistakes::Messages;
use c104_session::debug_command;
use c104_setup::Status;
use std::io::{BufReader, Read, Write};
use std::mem;

/// Runs a description and a script, line by line, and anew where a person asks for that. The script begins behind the
/// description in its text, if there is a line `script`, and goes on in standard input. Where a person types there, and
/// sees standard error, there are prompts.
pub fn debug_file<'a, W: Write + Drop>(
    rt: &HostRuntime,
    path: &'a str,
    output: &mut Recorded<W>,
    told: &mut Told<'a>,
) -> Status {
    if let Err(status) = see_open(rt, STANDARD_INPUT, 1, told) {
        return status;
    }
    let mut ahead = Vec::new(rt.alloc());
    for _ in 0..u64::MAX {
        let before = mem::replace(&mut ahead, Vec::new(rt.alloc()));
        if let Some(status) = debug_once(rt, path, before.as_slice(), &mut ahead, output, told) {
            return status;
        }
    }
    Status::Done
}

/// Runs them once, with what was read ahead of standard input before. None where they are to be run anew, with what was
/// read ahead of it now.
fn debug_once<'a, W: Write + Drop>(
    rt: &HostRuntime,
    path: &'a str,
    before: &[u8],
    ahead: &mut Vec<u8>,
    output: &mut Recorded<W>,
    told: &mut Told<'a>,
) -> Option<Status> {
    let mut text = match open_path(rt, path, 0, told) {
        Ok(text) => text,
        Err(status) => return Some(status),
    };
    let front = match read_front(rt, &mut text, told) {
        Ok(front) => front,
        Err(status) => return Some(status),
    };
    if path == STANDARD_INPUT {
        told.note_script(path, front.lines_before_script());
        return debug_lines(rt, &front, None, text, before, ahead, output, told);
    }
    let input = match open_path(rt, STANDARD_INPUT, 1, told) {
        Ok(input) => input,
        Err(status) => return Some(status),
    };
    if front.has_script {
        told.note_script(path, front.lines_before_script());
    }
    debug_lines(rt, &front, Some(text), input, before, ahead, output, told)
}

/// Runs a description and a script: what is left of their file, unless that is standard input, and what this gives
/// then, behind what was read ahead of it. None where they are to be run anew.
fn debug_lines<W: Write + Drop>(
    rt: &HostRuntime,
    front: &Front,
    file: Option<HostSource>,
    input: HostSource,
    before: &[u8],
    ahead: &mut Vec<u8>,
    output: &mut Recorded<W>,
    told: &mut Told<'_>,
) -> Option<Status> {
    let begin = front.ahead.as_slice();
    told.typed_from.set(None);
    let (file, first, typed_from) = match file {
        Some(file) => (Some(begin.chain(file)), before, Some(told.typed_from)),
        None => (None, begin, None),
    };
    let Ok(input) = BufReader::new(rt.alloc(), first.chain(input)) else {
        return Some(Status::NoMemory);
    };
    let mut description = front.description.as_slice();
    let mut script = Typed::new(rt, description, file, input, told.are_asked(), typed_from);
    let status = debug_command(rt.alloc(), &mut description, &mut script, output, told);
    end_lines(&script, status, ahead, told)
}

/// How a script ends that came to this status. None where a person asked to run it anew, with what was read ahead.
fn end_lines(
    script: &Typed<'_>,
    status: Status,
    ahead: &mut Vec<u8>,
    told: &mut Told<'_>,
) -> Option<Status> {
    told.fault = script.fault;
    if script.file.is_none() {
        told.note_script(STANDARD_INPUT, 0);
    }
    match status {
        Status::CannotRead(1) if script.lacks_memory => Some(Status::NoMemory),
        Status::Done | Status::Refused if matches!(script.ending, Some(Ending::Restart)) => {
            match ahead.extend_from_slice(script.input.buffer()) {
                Ok(()) => None,
                Err(_) => Some(Status::NoMemory),
            }
        }
        _ => Some(status),
    }
}
