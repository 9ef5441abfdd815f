//! The commands of a description and a script, of two files or of one.
ghost use Rattle.std.specs.Prelude.{◌≤◌};

use crate::arguments::{LEAN, SEED, WORKERS};
use crate::command_line::Order;
use crate::scripted::{read_back_texts, rows_texts, run_texts, storm_texts};
use crate::texts::{Script, open_texts, script_fault};
use crate::told::Told;
use c104_host::Recorded;
use c104_readback::Form;
use c104_session::Table;
use c104_setup::Status;
use c104_storm::{Allowance, MAX_WORKERS, Words};
use clap::ArgMatches;
use std::alloc::Global;
use std::io::Write;
use std::sync::Wait;
use std::thread::Threads;

/// What is printed of a script on the network of a description.
#[derive(Clone, Copy)]
pub enum ScriptTask {
    /// Its answers, and what arrived.
    Run,
    /// What a storm does by it.
    Storm(StormWords),
    /// The rows of a table, and whether what stands is told round by round.
    Rows(Table, bool),
    /// What it leaves in the registers.
    ReadBack(Form),
}

/// What the command line says of a storm.
#[derive(Clone, Copy)]
pub struct StormWords {
    // How many workers there are to be, 1 to 64, if that is said.
    workers: Option<u8>,
    words: Words,
    allowance: Allowance,
}

const DEFAULT_WORKERS: u8 = 2;

impl StormWords {
    /// What words that were matched say.
    pub fn of_matches(given: &ArgMatches<'_>) -> Self {
        StormWords {
            workers: given.get_one(WORKERS.name),
            words: match given.get_one(SEED.name) {
                Some(seed) => Words::Seeded(seed),
                None => Words::Zero,
            },
            allowance: if given.get_flag(LEAN.name) {
                Allowance::Counted
            } else {
                Allowance::Listed
            },
        }
    }

    /// How many workers there are, 1 to 64.
    fn worker_count(self) -> u8
        ensures { (1 ≤ result) × (result ≤ MAX_WORKERS) }
    {
        match self.workers {
            Some(count) if (1..=MAX_WORKERS).contains(&count) => count,
            _ => DEFAULT_WORKERS,
        }
    }
}

/// Opens the texts of an order, and prints what is asked for. The workers of a storm are threads that a handle gives.
pub fn do_script<'a, H: Threads + Wait + Sync, W: Write + Drop>(
    rt: &HostRuntime,
    threads: &H,
    order: Order<'a>,
    task: ScriptTask,
    output: &mut Recorded<W>,
    told: &mut Told<'a>,
) -> Status {
    let mut texts = match open_texts(rt, order, told) {
        Ok(texts) => texts,
        Err(status) => return status,
    };
    let (description, script) = (texts.description.as_slice(), &mut texts.script);
    let status = do_texts(rt.alloc(), threads, task, description, script, output, told);
    told.fault = script_fault(&texts.script);
    status
}

/// The same of texts that are open.
fn do_texts<H: Threads + Wait + Sync, W: Write + Drop>(
    alloc: Global,
    threads: &H,
    task: ScriptTask,
    description: &[u8],
    script: &mut Script,
    output: &mut Recorded<W>,
    told: &mut Told<'_>,
) -> Status {
    match task {
        ScriptTask::Run => run_texts(alloc, description, script, output, told),
        ScriptTask::Storm(storm) => storm_texts(
            alloc,
            threads,
            storm.worker_count(),
            storm.words,
            storm.allowance,
            description,
            script,
            output,
            told,
        ),
        ScriptTask::Rows(table, each) => {
            rows_texts(alloc, table, each, description, script, output, told)
        }
        ScriptTask::ReadBack(form) => {
            read_back_texts(alloc, form, description, script, output, told)
        }
    }
}
