//! The command line: its words, and what they ask for.
//!
//! No contract speaks of the command line: the cases do. A word that isn't UTF-8 is wrong usage, since paths are text
//! here. Out of memory in `clap` ends the program with status 4, though `clap` counts it among the errors of usage.

use crate::arguments::{ALL, DESCRIPTION, EXPLAIN, HEADER, SCRIPT, explain_option};
use crate::described::DescriptionTask;
use crate::help;
use crate::label_words::{MOST, Ports, label_task, ports_of};
use crate::row_words::{Saving, row_task};
use crate::script_files::{ScriptTask, StormWords};
use crate::subcommands::{Row, SUBCOMMANDS, Subcommand};
use c104_readback::Form;
use clap::{ArgMatches, Command, Error};
use std::alloc::{AllocError, Global};

/// The path of standard input.
pub const STANDARD_INPUT: &str = "-";

/// The option that asks for messages, as a word.
pub const EXPLAIN_WORD: &str = "--explain";

const VERSION: &str = "0.6.0";

const ABOUT: &str = "Emulates networks of IMS C104 packet routing switches, event by event";

/// What the command line asks for, and whether people are to be told of what goes wrong wherever standard error
/// goes.
#[derive(Clone, Copy)]
pub struct Words<'a> {
    /// What is asked for.
    pub order: Order<'a>,
    /// Whether `--explain` is said.
    pub explain: bool,
}

impl<'a> Words<'a> {
    /// What the words ask for, of which the first is the program's name. The error is a wrong usage,
    /// a text of help or of the version that was asked for, or out of memory.
    pub fn read(alloc: Global, words: &'a [String]) -> Result<Self, Error> {
        let matches = command_line(alloc)?.try_get_matches_from(words)?;
        Ok(Words {
            order: Order::of_matches(&matches),
            explain: matches.get_flag(EXPLAIN),
        })
    }
}

/// What is to be done, and by which texts. A path is a file's, or `-` for standard input.
#[derive(Clone, Copy)]
pub struct Order<'a> {
    /// What is to be done.
    pub task: Task<'a>,
    /// The description's path: `-` where none is said.
    pub description: &'a str,
    /// The script's path, if one is said. Else the script follows the description in its text.
    pub script: Option<&'a str>,
    /// The ports at which wires are left out.
    pub ports: Ports<'a>,
}

/// What is to be done.
#[derive(Clone, Copy)]
pub enum Task<'a> {
    /// A run of one text from standard input.
    Input,
    /// A run whose script comes line by line.
    Debug,
    /// Something is printed of a description's network.
    Describe(DescriptionTask),
    /// The labels are printed of what is left of it without the wires at some ports.
    Left,
    /// A script is run, and something is printed of that.
    Script(ScriptTask),
    /// A script is run, and rows of that are saved.
    Save(Saving<'a>),
    /// Nothing, since the words are wrong.
    Refuse(WrongWords),
}

/// What is wrong with words that were matched.
#[derive(Clone, Copy)]
pub enum WrongWords {
    /// What this says.
    Told(&'static str),
    /// A table of this name is named twice.
    Twice(&'static str),
}

impl<'a> Order<'a> {
    /// What is asked for where no word says anything.
    const PLAIN: Order<'static> = Order {
        task: Task::Input,
        description: STANDARD_INPUT,
        script: None,
        ports: [None; MOST],
    };

    /// The order of words that were matched.
    fn of_matches(matches: &ArgMatches<'a>) -> Self {
        let Some((name, given)) = matches.subcommand() else {
            return Order::PLAIN;
        };
        let Some(row) = row_of(name) else {
            return Order::PLAIN;
        };
        Order {
            task: task_of(row.subcommand, given),
            description: given.get_str(DESCRIPTION.name).unwrap_or(STANDARD_INPUT),
            script: given.get_str(SCRIPT.name),
            ports: ports_of(given),
        }
    }
}

/// The row of a subcommand of this name.
fn row_of(name: &str) -> Option<Row> {
    for row in SUBCOMMANDS {
        if row.name == name {
            return Some(row);
        }
    }
    None
}

/// What a subcommand asks for with words that were matched.
fn task_of<'a>(subcommand: Subcommand, given: &ArgMatches<'a>) -> Task<'a> {
    match subcommand {
        Subcommand::Run if given.get_str(DESCRIPTION.name).is_none() => Task::Input,
        Subcommand::Run => Task::Script(ScriptTask::Run),
        Subcommand::Debug => Task::Debug,
        Subcommand::Storm => Task::Script(ScriptTask::Storm(StormWords::of_matches(given))),
        Subcommand::Rows => row_task(given),
        Subcommand::Check => check_task(given),
        Subcommand::Cycles => Task::Describe(DescriptionTask::Cycles(given.get_flag(ALL.name))),
        Subcommand::Label => label_task(given),
    }
}

/// What `check` asks for: of the labels of a description, of one header, or of the labels that a script leaves.
fn check_task<'a>(given: &ArgMatches<'a>) -> Task<'a> {
    if given.get_str(SCRIPT.name).is_some() {
        return Task::Script(ScriptTask::ReadBack(Form::Check));
    }
    let header: Option<u16> = given.get_one(HEADER.name);
    match header {
        Some(header) => Task::Describe(DescriptionTask::Header(u32::from(header))),
        None => Task::Describe(DescriptionTask::Check),
    }
}

/// All that the program takes. The only error is out of memory.
fn command_line<'a>(alloc: Global) -> Result<Command<'a>, AllocError> {
    let subcommands = subcommands(alloc)?;
    program(alloc)?.subcommands(subcommands)
}

/// The program, without its subcommands.
fn program<'a>(alloc: Global) -> Result<Command<'a>, AllocError> {
    command(alloc, "c104", ABOUT, help::PROGRAM)
        .version(VERSION)
        .bin_name("c104")?
        .arg(explain_option(alloc)?)
}

/// The subcommands, as help lists them.
// Lists are made of what a command takes, since a function is dear to prove that holds a command over what can fail.
fn subcommands<'a>(alloc: Global) -> Result<Vec<Command<'a>>, AllocError> {
    let mut commands = Vec::new(alloc);
    for row in SUBCOMMANDS {
        commands.push(subcommand(alloc, row)?)?;
    }
    Ok(commands)
}

/// A subcommand with its words.
fn subcommand<'a>(alloc: Global, row: Row) -> Result<Command<'a>, AllocError> {
    let arguments = row.subcommand.arguments(alloc)?;
    command(alloc, row.name, row.about, row.teaching).args(arguments)
}

/// A command, and what help says of it before and after its arguments.
fn command<'a>(alloc: Global, name: &'a str, about: &'a str, teaching: &'a str) -> Command<'a> {
    Command::new(alloc, name).about(about).after_help(teaching)
}
