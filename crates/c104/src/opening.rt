//! How the files that the command line names are opened.
//!
//! A path is opened before anything is read, the description's first, so a script that isn't there is told before a
//! description is refused. Each error is how the command ends: with the number of what can't be read, 0 for the
//! description and 1 for the script.

use crate::command_line::STANDARD_INPUT;
use crate::sources::{Source, Watched};
use crate::told::Told;
use c104_setup::Status;
use std::fs;
use std::fs::File;
use std::io::{Input, Read};

/// A file of the host's, or its standard input.
pub type HostSource = Watched<Source<File, <HostRuntime as Input>::Reader>>;

/// Opens a path, of which nothing is read yet.
pub fn open_path(
    rt: &HostRuntime,
    path: &str,
    number: u8,
    told: &mut Told<'_>,
) -> Result<HostSource, Status> {
    if path == STANDARD_INPUT {
        return Ok(Watched::new(Source::Input(rt.reader())));
    }
    match fs::open(rt, path) {
        Ok(file) => Ok(Watched::new(Source::File(file))),
        Err(error) => {
            told.fault = error.raw_os_error();
            Err(Status::CannotRead(number))
        }
    }
}

/// Sees that something is open at standard input, if that is the path: a file that is opened would take its place.
pub fn see_open(
    rt: &HostRuntime,
    path: &str,
    number: u8,
    told: &mut Told<'_>,
) -> Result<(), Status> {
    if path != STANDARD_INPUT {
        return Ok(());
    }
    match rt.reader().read(&mut []) {
        Ok(_) => Ok(()),
        Err(error) => {
            told.fault = error.raw_os_error();
            Err(Status::CannotRead(number))
        }
    }
}

/// Opens a description and a script, the description first, before anything is read.
pub fn open_both(
    rt: &HostRuntime,
    description: &str,
    script: &str,
    told: &mut Told<'_>,
) -> Result<(HostSource, HostSource), Status> {
    see_open(rt, description, 0, told)?;
    see_open(rt, script, 1, told)?;
    let description = open_path(rt, description, 0, told)?;
    let script = open_path(rt, script, 1, told)?;
    Ok((description, script))
}
