//! The calls that tests make of the commands, with nothing promised: the prover would compute what is written of
//! literal texts.
use c104_mistakes::Silent;
use c104_session::run;
use c104_setup::Status;
use std::alloc::Global;
use std::io::{Read, Write};

/// A run of a description and a script from two readers.
pub fn run_parts<D: Read, S: Read, W: Write>(
    alloc: Global,
    description: &mut D,
    script: &mut S,
    writer: &mut W,
) -> Status {
    run(alloc, description, script, writer, &mut Silent)
}
