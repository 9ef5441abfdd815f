//! The program: reads a description of a network and a script, and shows what the network answers.
//!
//! `main` reads the command line, opens what it names, calls the function of a command and says what that function's
//! `Status` means: a message on standard error and an exit status (`ends`). What the functions of commands write to
//! standard output is said in `described`, of a description, and in `scripted`, of a description and a script; their
//! files are opened in `description_files` and `script_files`, and where rows are saved in `row_files`.
//!
//! What the words of the command line ask for is in `command_line`, with the words of labels and of rows in modules of
//! their own; which subcommands there are in `subcommands`, what they take in `arguments`, and the texts of help in
//! `help`. What is told of wrong words is in `usage`, and what people are told beside the answers in `told`.
//!
//! How files are opened is in `opening`, how a text is cut into a description and a script in `texts`, and what is read
//! in `sources`. The command `debug` is in `debugging`, and a script that is typed is read in `typed`; what the prompt
//! does itself is in `prompting`, and of that rounds up to a packet's arrival in `until`. The functions of the commands
//! are those of `c104_commands`, `c104_session`, `c104_readback` and `c104_storm`.
#![tactic(auto)]

mod arguments;
mod command_line;
mod debugging;
mod described;
mod description_files;
mod ends;
mod help;
mod label_words;
mod opening;
mod prompting;
mod row_files;
mod row_words;
mod script_files;
mod scripted;
mod sources;
mod subcommands;
mod texts;
mod told;
mod typed;
mod until;
mod usage;

use c104_host::Recorded;
use c104_mistakes::{About, Messages};
use c104_session::run_text;
use c104_setup::Status;
use clap::Error;
use clap::error::ErrorKind;
use command_line::{Order, Task, Words, WrongWords};
use debugging::debug_file;
use description_files::{describe_file, describe_left_of_file};
use ends::End;
use row_files::save_rows;
use script_files::do_script;
use sources::Watched;
use std::cell::Cell;
use std::io::{Input, IsTerminal, Write};
use std::process::ExitCode;
use std::sync::Wait;
use std::thread::Threads;
use std::{env, io};
use told::Told;
use usage::{tell_of_error, tell_of_gone};

/// What is told where a person may not know that a text is awaited.
const AWAITED: &str =
    "reads a description and a script from standard input, up to Ctrl-D; `c104 --help` tells more";

fn main(rt: HostRuntime) -> ExitCode {
    let end = match command_words(&rt) {
        Ok(words) => do_words(&rt, &rt, words.as_slice()),
        Err(error) if error.kind() == io::ErrorKind::OutOfMemory => {
            finish(&rt, Status::NoMemory, None)
        }
        Err(_) => {
            let _ = rt.eprintln("error: a word isn't UTF-8\n\nFor more information, try '--help'.");
            End::WrongUsage
        }
    };
    end.exit_code()
}

/// The words of the command line. The error's kind is OutOfMemory, or a word isn't text.
fn command_words(rt: &HostRuntime) -> io::Result<Vec<String>> {
    let words = env::args(rt)?.collect(rt.alloc())?;
    Ok(words)
}

/// Does what the words ask for, of which the first is the program's name.
fn do_words<H: Threads + Wait + Sync>(rt: &HostRuntime, threads: &H, words: &[String]) -> End {
    match Words::read(rt.alloc(), words) {
        Ok(words) => do_matched(rt, threads, words),
        Err(error) => end_unmatched(rt, words, &error),
    }
}

/// Says what is wrong with the words, or shows what they ask for: help and the version are no fault.
fn end_unmatched(rt: &HostRuntime, words: &[String], error: &Error) -> End {
    if error.kind() == ErrorKind::OutOfMemory {
        return finish(rt, Status::NoMemory, None);
    }
    let given = match words {
        [_, given @ ..] => given,
        [] => words,
    };
    if error.use_stderr() && tell_of_gone(rt, given) {
        return End::WrongUsage;
    }
    let shown = error.print(rt);
    if error.use_stderr() {
        tell_of_error(rt, given, error);
        return End::WrongUsage;
    }
    let status = match shown {
        Ok(()) => Status::Done,
        Err(_) => Status::CannotWrite,
    };
    finish(rt, status, None)
}

/// Does what the words ask for that were matched.
fn do_matched<H: Threads + Wait + Sync>(rt: &HostRuntime, threads: &H, words: Words<'_>) -> End {
    let typed_from = Cell::new(None);
    let mut told = Told::new(rt, words.order, words.explain, &typed_from);
    let mut output = Recorded::new(io::writer(rt));
    let status = do_order(rt, threads, words.order, &mut output, &mut told);
    if told.has_wrong_word {
        return End::WrongUsage;
    }
    let path = told.failed_path(status);
    let end = finish(rt, status, path);
    if let Some(path) = path
        && let Some(fault) = told.told_fault()
    {
        let _ = eprintln!(rt; "c104: {path}: {fault}");
    }
    end
}

/// Does an order, and tells what people are to be told.
fn do_order<'a, H: Threads + Wait + Sync, W: Write + Drop>(
    rt: &HostRuntime,
    threads: &H,
    order: Order<'a>,
    output: &mut Recorded<W>,
    told: &mut Told<'a>,
) -> Status {
    let path = order.description;
    match order.task {
        Task::Input => run_input(rt, output, told),
        Task::Debug => debug_file(rt, path, output, told),
        Task::Describe(task) => describe_file(rt, path, task, output, told),
        Task::Left => describe_left_of_file(rt, path, order.ports, output, told),
        Task::Script(task) => do_script(rt, threads, order, task, output, told),
        Task::Save(saving) => save_rows(rt, order, saving, output, told),
        Task::Refuse(wrong) => refuse(rt, wrong, told),
    }
}

/// Says what is wrong with words that were matched.
fn refuse(rt: &HostRuntime, wrong: WrongWords, told: &mut Told<'_>) -> Status {
    let _ = match wrong {
        WrongWords::Told(message) => eprintln!(rt; "error: {message}"),
        WrongWords::Twice(table) => eprintln!(rt; "error: --what {table} is said twice"),
    };
    told.wrong_word()
}

/// Runs one text from standard input.
fn run_input<W: Write + Drop>(
    rt: &HostRuntime,
    output: &mut Recorded<W>,
    told: &mut Told<'_>,
) -> Status {
    if told.is_watched && rt.stdin().is_terminal() {
        told.tell(About::Run, AWAITED);
    }
    let mut text = Watched::new(rt.reader());
    let status = run_text(rt.alloc(), &mut text, output, told);
    told.fault = text.fault();
    status
}

/// Says on standard error what failed, and of which file, and gives the end of the program.
fn finish(rt: &HostRuntime, status: Status, path: Option<&str>) -> End {
    let end = End::Command(status);
    let failed = match status {
        Status::Done | Status::Refused => return end,
        Status::CannotRead(_) => "cannot read",
        Status::CannotWrite => "cannot write",
        Status::NoMemory => "no memory",
    };
    let _ = match path {
        Some(path) => eprintln!(rt; "c104: {failed} {path}"),
        None => eprintln!(rt; "c104: {failed}"),
    };
    end
}
