//! The commands of a description's file alone.

use crate::described::{DescriptionTask, describe_left, describe_text};
use crate::label_words::Ports;
use crate::texts::read_description_of;
use crate::told::Told;
use c104_describe::read_description;
use c104_host::Recorded;
use c104_setup::Status;
use std::alloc::{AllocError, Global};
use std::io::Write;

/// The last header of one byte.
const LAST_SHORT_HEADER: u32 = 255;

/// Prints what is asked for of the network of a description's file. A header that its packets can't have is a wrong
/// word.
pub fn describe_file<W: Write + Drop>(
    rt: &HostRuntime,
    path: &str,
    task: DescriptionTask,
    output: &mut Recorded<W>,
    told: &mut Told<'_>,
) -> Status {
    let text = match read_description_of(rt, path, told) {
        Ok(text) => text,
        Err(status) => return status,
    };
    if let DescriptionTask::Header(header) = task
        && header > LAST_SHORT_HEADER
        && has_short_headers(rt.alloc(), text.as_slice())
    {
        let _ = eprintln!(rt;
            "error: the headers of this network have one byte, 0 to 255: {header}"
        );
        return told.wrong_word();
    }
    describe_text(rt.alloc(), task, text.as_slice(), output, told)
}

/// Whether the headers of a description's network have one byte.
fn has_short_headers(alloc: Global, description: &[u8]) -> bool {
    match read_description(alloc, description) {
        Ok(plan) => plan.header() == 1,
        Err(_) => false,
    }
}

/// Prints the labels of what is left of the network of a description's file without the wires at these ports.
pub fn describe_left_of_file<W: Write + Drop>(
    rt: &HostRuntime,
    path: &str,
    ports: Ports<'_>,
    output: &mut Recorded<W>,
    told: &mut Told<'_>,
) -> Status {
    let text = match read_description_of(rt, path, told) {
        Ok(text) => text,
        Err(status) => return status,
    };
    match said_of(rt.alloc(), ports) {
        Ok(ports) => describe_left(rt.alloc(), ports.as_slice(), text.as_slice(), output, told),
        Err(_) => Status::NoMemory,
    }
}

/// The ports that are said, in their order. The only error is out of memory.
fn said_of<'a>(alloc: Global, ports: Ports<'a>) -> Result<Vec<&'a str>, AllocError> {
    let mut said = Vec::new(alloc);
    for port in ports {
        if let Some(port) = port {
            said.push(port)?;
        }
    }
    Ok(said)
}
