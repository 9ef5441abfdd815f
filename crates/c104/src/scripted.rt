//! The commands of a description and a script that are read. Where the script's reader tells its bytes, as a text that
//! is held does, it is said of each with what status it ends, and what standard output took by then.
ghost use Rattle.std.specs.Prelude.{[], ◌∷◌, ◌≤◌};
ghost use Rattle.c104.specs.{Scripted.ReaderEnds, Shown.{shows_run, shows_storm, shows_text}};
ghost use Rattle.{c104_readback.specs.ReadBacks.ReadsBack, c104_rows.specs.Tables.wanted_of};
ghost use Rattle.{c104_session.specs.RowRuns.IsRefusedRows, c104_storm.specs.Workers.team_of};

use c104_host::Recorded;
use c104_mistakes::Messages;
use c104_readback::{Form, read_back_command};
use c104_session::{Table, rows_command, run};
use c104_setup::Status;
use c104_storm::{Allowance, MAX_WORKERS, Words, storm_command};
use std::alloc::Global;
use std::io::{Read, Write};
use std::sync::Wait;
use std::thread::Threads;

/// Runs the script.
#[tactic(auto, using(crate::proofs::EndedRuns::run_read))]
pub fn run_texts<S: Read, W: Write + Drop, M: Messages>(
    alloc: Global,
    mut description: &[u8],
    script: &mut S,
    output: &mut Recorded<W>,
    messages: &mut M,
) -> Status
    ensures { ReaderEnds shows_run description.now
        (S.remaining script.old) (S.remaining script.new) output.old output.new result }
{
    run(alloc, &mut description, script, output, messages)
}

/// Lets workers carry the packets that the script sends.
#[tactic(auto, using(crate::proofs::EndedStorms::storm_read))]
pub fn storm_texts<R: Threads + Wait + Sync, S: Read, W: Write + Drop, M: Messages>(
    alloc: Global,
    threads: &R,
    workers: u8,
    words: Words,
    allowance: Allowance,
    mut description: &[u8],
    script: &mut S,
    output: &mut Recorded<W>,
    messages: &mut M,
) -> Status
    requires { (1 ≤ workers) × (workers ≤ MAX_WORKERS) }
    ensures { ReaderEnds (shows_storm (team_of workers words)) description.now
        (S.remaining script.old) (S.remaining script.new) output.old output.new result }
{
    storm_command(
        alloc,
        threads,
        workers,
        words,
        allowance,
        &mut description,
        script,
        output,
        messages,
    )
}

/// Prints the rows of the script's run.
#[tactic(auto, using(crate::proofs::EndedRuns::text_read))]
pub fn rows_texts<S: Read, W: Write + Drop, M: Messages>(
    alloc: Global,
    table: Table,
    each: bool,
    mut description: &[u8],
    script: &mut S,
    output: &mut Recorded<W>,
    messages: &mut M,
) -> Status
    ensures { ReaderEnds (λ text. shows_text (IsRefusedRows (wanted_of each (table ∷ [])) (Some text))) description.now
        (S.remaining script.old) (S.remaining script.new) output.old output.new result }
{
    rows_command(
        alloc,
        table,
        each,
        &mut description,
        script,
        output,
        messages,
    )
}

/// Prints the labels that the script leaves in the registers.
#[tactic(auto, using(crate::proofs::EndedRuns::text_read))]
pub fn read_back_texts<S: Read, W: Write + Drop, M: Messages>(
    alloc: Global,
    form: Form,
    mut description: &[u8],
    script: &mut S,
    output: &mut Recorded<W>,
    messages: &mut M,
) -> Status
    ensures { ReaderEnds (λ text. shows_text (ReadsBack form (Some text))) description.now
        (S.remaining script.old) (S.remaining script.new) output.old output.new result }
{
    read_back_command(alloc, form, &mut description, script, output, messages)
}
